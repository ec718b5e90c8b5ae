// What the bus keeps of the last setup that a device heard.

#[derive(Clone, Copy, Debug, PartialEq, Eq)]
pub struct Heard {
    // the device address that it went to
    pub address: u8,
    // whether it was a request that the device could do
    pub good: bool,
}
