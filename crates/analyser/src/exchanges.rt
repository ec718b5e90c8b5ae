// One exchange over a wire, and what its frame does, byte by byte, in words.
ghost use Rattle.std.specs.Prelude.{◌≡◌, Some};
ghost use Rattle.std.specs.Fmt.{DisplaysOnOk};
ghost use Rattle.frames.specs.Asked.{asked};
ghost use Rattle.frames.specs.Format.{register_of};
ghost use Rattle.analyser.specs.Words.{way, meaning, data_lines, words};

use frames::{Access, read_frame};
use port::registers::{HCTL, HIRQ, HRSL, HXFR, PERADDR, SNDBC, SNDFIFO};
use std::fmt;

// The bytes out, and the bytes that came back in their places.
#[derive(Debug, Drop)]
pub struct Exchange {
    pub sent: Vec<u8>,
    pub answered: Vec<u8>,
}

// Which way the bytes of an access go, and its register.
fn parts(access: Access) -> (&'static str, u8)
    ensures way { result.0.now ≡ way (asked access.entry) }
    ensures register { result.1 ≡ register_of (asked access.entry) }
{
    match access {
        Access::Put { register, .. } => ("put to", register),
        Access::Get { register, .. } => ("get from", register),
    }
}

// What a data byte at a register means.
fn meaning(register: u8) -> &'static str
    ensures { result.now ≡ meaning register }
{
    match register {
        SNDFIFO => "one byte into the send buffer",
        SNDBC => "how many of these bytes go",
        HIRQ => "the done flag is cleared",
        PERADDR => "the printer's address",
        HCTL => "the send toggle: 40 sets DATA0, 80 sets DATA1",
        HXFR => "launch: 20 is OUT, and the endpoint is added",
        HRSL => "the toggles, and the result code in the low four bits",
        _ => "another register",
    }
}

// A line for each data byte.
fn write_data<W: fmt::Write>(
    f: &mut fmt::Formatter<W>,
    meant: &str,
    sent: &[u8],
    answered: &[u8],
) -> fmt::Result
    ensures { DisplaysOnOk W.write_str_gives f.old result (Some (data_lines meant.now sent.now answered.now)) f.new }
{
    for (out, back) in sent.iter().zip(answered) {
        writeln!(f, "    out {out:02x} in {back:02x}  {meant}")?;
    }
    Ok(())
}

// A line for the command byte and one for each data byte, each with its line feed. Nothing where no frame was sent.
impl fmt::Display for Exchange {
    ghost output = { λ e. Some (words e.sent.items e.answered.items) };

    fn fmt<W: fmt::Write>(&self, f: &mut fmt::Formatter<W>) -> fmt::Result {
        let (Some(access), Some((out, sent)), Some((back, answered))) = (
            read_frame(&self.sent),
            self.sent.split_first(),
            self.answered.split_first(),
        ) else {
            return Ok(());
        };
        let (way, register) = parts(access);
        writeln!(
            f,
            "  out {out:02x} in {back:02x}  command: {way} R{register}"
        )?;
        write_data(f, meaning(register), sent, answered)
    }
}
