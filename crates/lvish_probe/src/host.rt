//! What this program needs of the runtime.

use std::sync::Wait;
use std::thread::Threads;

/// Memory, standard input, and threads.
pub trait Host: AllocGlobal + Input + Threads + Wait + Sync {}

impl<R: AllocGlobal + Input + Threads + Wait + Sync> Host for R {}
