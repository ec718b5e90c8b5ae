// The two ways of joining the data lines of a wire.
#[derive(Clone, Copy, Debug, PartialEq, Eq)]
pub enum Duplex {
    // one line for both directions: the command byte is answered with 0
    Half,
    // a line for each direction: while the command byte goes out, R25 as it is before the frame comes in
    Full,
}
