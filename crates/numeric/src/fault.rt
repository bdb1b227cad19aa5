// Why a package is not written.
#[derive(Clone, Copy, PartialEq, Eq, Debug)]
pub enum PackageFault {
    // 9: the buffer has no room for the bytes that the package needs, which are told.
    NoSpace(usize),
}
