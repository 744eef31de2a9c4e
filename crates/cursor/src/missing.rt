// Why a command does not stand where it is due.
#[derive(Clone, Copy, PartialEq, Eq, Debug)]
pub enum Lack {
    // another letter stands there
    Letter,
    // the bytes end within it
    CutShort,
}

// The same, and the offset in the file where that shows.
#[derive(Clone, Copy, PartialEq, Eq, Debug)]
pub struct Missing {
    pub lack: Lack,
    pub offset: usize,
}
