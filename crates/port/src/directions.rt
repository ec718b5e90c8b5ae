// Which way the data of an endpoint goes, as the host sees it.

#[derive(Clone, Copy, Debug, PartialEq, Eq)]
pub enum Direction {
    // host to device
    Out,
    // device to host
    In,
}
