// The format of a frame: a command byte and at most 64 data bytes.
ghost use Rattle.std.specs.Prelude.{◌≡◌, ◌<◌, ◌≤◌, length, MatchOption};
ghost use Rattle.std.specs.Option.{option_map};
ghost use Rattle.frames.specs.Asked.{asked};
ghost use Rattle.frames.specs.Format.{written_length, written, command_of, register_of, count_of, body_of, command_puts, asked_by, read};

use crate::registers::Register;

// the data bytes that a frame can have
pub const BODY_MOST: usize = 64;
// a whole frame at its longest
pub const FRAME_MOST: usize = 65;
// the direction in a command byte: bit 1, set for a put
const PUT_BIT: u8 = 2;

// Bytes to put to a register, or a count of bytes to get from one.
#[derive(Clone, Copy, Debug, PartialEq, Eq)]
pub enum Access<'a> {
    Put { register: u8, bytes: &'a [u8] },
    Get { register: u8, count: usize },
}

impl Access<'_> {
    fn register(self) -> u8
        ensures { result ≡ register_of (asked self.entry) }
    {
        match self {
            Access::Put { register, .. } | Access::Get { register, .. } => register,
        }
    }

    // How many data bytes its frame has.
    fn count(self) -> usize
        ensures { result ≡ count_of (asked self.entry) }
    {
        match self {
            Access::Put { bytes, .. } => bytes.len(),
            Access::Get { count, .. } => count,
        }
    }

    // The command byte of its frame; none at a register that no command byte can name.
    fn command(self) -> Option<u8>
        ensures { MatchOption result (31 < register_of (asked self.entry)) (λ command. (register_of (asked self.entry) ≤ 31) × (command ≡ command_of (asked self.entry))) }
    {
        let register = Register::new(self.register())?;
        Some(match self {
            Access::Put { .. } => register.number * 8 + PUT_BIT,
            Access::Get { .. } => register.number * 8,
        })
    }

    // Writes the data bytes of its frame.
    fn write_body(self, body: &mut [u8])
        requires { length body.old ≡ count_of (asked self) }
        ensures { body.new ≡ body_of (asked self.entry) }
    {
        match self {
            Access::Put { bytes, .. } => body.copy_from_slice(bytes),
            Access::Get { .. } => body.fill(0),
        }
    }
}

// Writes the frame of an access to the front of the buffer, and gives its length: 1 + its data bytes. Gives 0, and leaves the buffer
// as it is, if the register is above 31, the data bytes are more than 64, or the buffer is too short. It is a rule of frames that a
// length of 0 stands for no frame, so it is no `Option`; and the buffer is the caller's, since a wire has no heap.
pub fn write_frame(access: Access, buffer: &mut [u8]) -> usize
    ensures length { result ≡ written_length (asked access.entry) buffer.old }
    ensures bytes { buffer.new ≡ written (asked access.entry) buffer.old }
{
    let count = access.count();
    let Some(command) = access.command() else {
        return 0;
    };
    if count > BODY_MOST || count >= buffer.len() {
        return 0;
    }
    buffer[0] = command;
    access.write_body(&mut buffer[1..1 + count]);
    1 + count
}

// Whether a command byte asks for a put.
pub(crate) fn is_put(command: u8) -> bool
    ensures { result ≡ command_puts command }
{
    command / PUT_BIT % 2 == 1
}

// The access that a frame asks for; none without a command byte. Bits 2 and 0 of the command are not looked at, nor are the data bytes
// of a get. At most 64 data bytes are read: what follows them is no part of the frame.
pub fn read_frame(bytes: &[u8]) -> Option<Access>
    ensures { option_map asked result ≡ read bytes.now }
{
    let (command, rest) = bytes.split_first()?;
    let end = rest.len().min(BODY_MOST);
    Some(read_parts(*command, &rest[..end]))
}

fn read_parts(command: u8, body: &[u8]) -> Access
    ensures { asked result ≡ asked_by command body.now }
{
    let register = Register::named_by(command).number;
    if is_put(command) {
        return Access::Put {
            register,
            bytes: body,
        };
    }
    Access::Get {
        register,
        count: body.len(),
    }
}
