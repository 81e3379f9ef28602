//! [`Request`], what the command line asks the program to do with a file. Used by `judge`, `main`, `run`, `text` and `words`.
use twkb_layer::Window;

/// What the program is asked to do with the file.
#[derive(Drop)]
pub enum Request {
    /// Certify it, or name its first false claim.
    Check,
    /// Certify it as a layer without a loose box, or name its first false claim, where a loose box is false too.
    CheckTight,
    /// List every blob: offset, length, type, precision, vertex count.
    List,
    /// For each window, in order, name the blobs that have a vertex inside. There are 1 to `MAX_WINDOWS` windows.
    Scan(Vec<Window>),
}

/// A command line: the file, and what the program is asked to do with it.
#[derive(Drop)]
pub struct Line {
    pub path: String,
    pub request: Request,
}
