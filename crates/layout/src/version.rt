/// The two editions of the format, as a file's header tells them.
#[derive(Clone, Copy, PartialEq, Eq, Debug)]
pub enum Version {
    /// 1.1
    V11,
    /// 2.0
    V20,
}
