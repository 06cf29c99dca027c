//! The content of a file, as writes.
ghost use Rattle.std.specs.Prelude.{◌≡◌, ◌+◌, ◌<◌, ◌≤◌, ◌++◌, ◌∷◌, ℕ, List, [], drop, length, take, vec_len, IfOk, OnOk};
ghost use Rattle.std.specs.Option.{option_to_list};
ghost use Rattle.sn_import.specs.Writes.{writes};
ghost use Rattle.sn_model.specs.declared.call.Call.TheVariants as call;

use sn_model::{Call, FileData};
use std::alloc::{AllocError, Global};
use std::marker::Model;
use std::mem;

/// The bytes of each write but the last.
pub const WRITE_SIZE: usize = 28_672;

/// The bytes of a file's content that no write has yet. Seen as the descriptor of the file and these bytes.
#[derive(Drop)]
pub struct Content {
    fd: u32,
    bytes: Vec<u8>,
}

impl Model for Content {
    ghost use Rattle.std.specs.Prelude.{◌<◌, vec_len};
    ghost use Rattle.sn_import.specs.Writes.{Unwritten};

    ghost Value = { Unwritten };

    ghost view = { λ content. record { fd = content.fd; held = content.bytes.items } };

    ghost invariant = { λ content. vec_len content.bytes < 28672 };
}

fn front(bytes: &[u8], size: usize) -> &[u8]
    requires { size ≤ length bytes.now }
    ensures { result.now ≡ take size bytes.now }
{
    &bytes[..size]
}

fn back(bytes: &[u8], from: usize) -> &[u8]
    requires { from ≤ length bytes.now }
    ensures { result.now ≡ drop from bytes.now }
{
    &bytes[from..]
}

impl Content {
    /// The content of a file that was opened under this descriptor. It takes no memory.
    pub fn new(alloc: Global, fd: u32) -> Content
        ensures { result ≡ record { fd = fd; held = [] } }
    {
        Content {
            fd,
            bytes: Vec::new(alloc),
        }
    }

    fn size(&self) -> usize
        ensures value { result ≡ length self.now.held }
        ensures within { length self.now.held < 28672 }
    {
        self.bytes.len()
    }

    // How many bytes a write is short of.
    fn missing(&self) -> usize
        ensures value { result + length self.now.held ≡ 28672 }
        ensures some { 0 < result }
    {
        WRITE_SIZE - self.bytes.len()
    }

    fn append(&mut self, bytes: &[u8]) -> Result<(), AllocError>
        requires { length self.old.held + length bytes.now < 28672 }
        ensures more { OnOk result (self.new ≡ record self.old { held = self.old.held ++ bytes.now }) }
        ensures short { length self.new.held < 28672 }
    {
        self.bytes.extend_from_slice(bytes)
    }

    // Holds bytes that fill no write.
    fn hold(&mut self, bytes: &[u8]) -> Result<(), AllocError>
        requires { length self.old.held + length bytes.now < 28672 }
        ensures same { OnOk result ((rest : List ℕ) → writes self.old (bytes.now ++ rest) ≡ writes self.new rest) }
        ensures short { length self.new.held < 28672 }
    {
        self.append(bytes)?;
        Ok(())
    }

    // Holds other bytes, and gives those that it held.
    fn exchange(&mut self, bytes: Vec<u8>) -> Vec<u8>
        requires { vec_len bytes < 28672 }
        ensures given { result.items ≡ self.old.held }
        ensures held { self.new ≡ record self.old { held = bytes.items } }
    {
        mem::replace(&mut self.bytes, bytes)
    }

    fn write(&self, bytes: Vec<u8>) -> Call
        ensures { result ≡ call.Write self.now.fd bytes.items }
    {
        Call::Write {
            fd: self.fd,
            bytes: FileData::new(bytes),
        }
    }

    // Takes bytes of which a front fills a write, and gives that write.
    fn fill(&mut self, alloc: Global, bytes: &[u8]) -> Result<Call, AllocError>
        requires filled { 28672 ≤ length self.old.held + length bytes.now }
        requires block { length bytes.now ≤ 512 }
        ensures filled { IfOk result (λ next. (rest : List ℕ) → writes self.old (bytes.now ++ rest) ≡ next ∷ writes self.new rest) }
        ensures short { length self.new.held < 28672 }
    {
        let room = self.missing();
        let kept = Vec::from_slice(alloc, back(bytes, room))?;
        let mut piece = self.exchange(kept);
        piece.extend_from_slice(front(bytes, room))?;
        Ok(self.write(piece))
    }

    /// Takes the next bytes, a block at the most, and gives the write that they fill, if they fill one. Less than a write is held
    /// after it.
    ///
    /// Proved, also of `Content::last`: The writes of a file have its content, in pieces of 28,672 bytes and a last one with what
    /// is left, if any is.
    pub fn push(&mut self, alloc: Global, bytes: &[u8]) -> Result<Option<Call>, AllocError>
        requires { length bytes.now ≤ 512 }
        ensures filled { IfOk result (λ next. (rest : List ℕ) → writes self.old (bytes.now ++ rest) ≡ option_to_list next ++ writes self.new rest) }
        ensures short { length self.new.held < 28672 }
    {
        if self.size() + bytes.len() < WRITE_SIZE {
            self.hold(bytes)?;
            Ok(None)
        } else {
            Ok(Some(self.fill(alloc, bytes)?))
        }
    }

    /// The write of what is left, once all bytes came.
    pub fn last(self) -> Option<Call>
        ensures { writes self [] ≡ option_to_list result }
    {
        if self.bytes.is_empty() {
            return None;
        }
        Some(Call::Write {
            fd: self.fd,
            bytes: FileData::new(self.bytes),
        })
    }
}
