//! Gates, by which a test holds a thread back before an operation.

use std::sync::Wait;

/// What is called before each operation of a line.
pub trait Gate {
    /// May hold the thread back before the operation of this line. Thread 0 is `main`, 1 to 32 are the threads, and 33
    /// is `finally`; the lines of each are numbered from 1.
    fn before<R: Wait>(&self, rt: &R, thread: u8, line: u32);
}

/// A gate that holds nobody back.
pub struct OpenGate;

impl Gate for OpenGate {
    fn before<R: Wait>(&self, _rt: &R, _thread: u8, _line: u32) {}
}
