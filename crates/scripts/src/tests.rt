// Each public function once where nothing is wanting.
use crate::{Command, Hex, LineError, Machine, Said, Vocabulary, run};
use std::test::Fail;

#[test]
fn bytes_print_in_two_digits_each(rt: HostRuntime) -> Result<(), Fail> {
    let alloc = rt.alloc();
    assert_eq!(rt; Hex(&[10, 255]).to_string(alloc)?.as_str(), "0aff");
    assert_eq!(rt; Hex(&[]).to_string(alloc)?.as_str(), "-");
    Ok(())
}

#[test]
fn lines_are_read(rt: HostRuntime) -> Result<(), Fail> {
    let alloc = rt.alloc();
    let put = Command::Put {
        register: 28,
        value: 9,
    };
    assert_eq!(rt; Command::read(alloc, b"put 28 9")?, put);
    let packet = Command::Packet {
        address: 9,
        number: 1,
        bytes: vec![in alloc; 0x41, 0xff]?,
    };
    assert_eq!(rt; Command::read(alloc, b"wait 9 1 41ff")?, packet);
    for line in [b"put 28 09", b"put 28 +9", b"put  28 9", b"put 28 9 "] {
        assert_eq!(rt; Command::read(alloc, line), Err(LineError::NotUnderstood));
    }
    Ok(())
}

#[test]
fn a_machine_obeys(rt: HostRuntime) -> Result<(), Fail> {
    let alloc = rt.alloc();
    let machine = Machine::new(alloc)?;
    let (_, said) = machine.obey(alloc, Command::Get { register: 28 });
    let got = Said::Got {
        register: 28,
        value: 0,
    };
    assert_eq!(rt; said, Ok(got));
    Ok(())
}

#[test]
fn a_script_runs(rt: HostRuntime) -> Result<(), Fail> {
    let script = b"put 28 9\nfetch 0 8\nclose 0\nget 28";
    let out = run(rt.alloc(), script, Vocabulary::WithoutFetch)?;
    assert_eq!(rt;
        out.as_str(),
        "put 28: 9\nline 2: not understood\nclose 0: number 3\nline 4: not understood\n"
    );
    Ok(())
}
