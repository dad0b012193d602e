ghost use Rattle.std.specs.Prelude.{◌≡◌, ◌≤◌, ◌<◌, ◌-◌, IfOk, length, min, position, string_bytes};
ghost use Rattle.mp_outside.specs.Outside.{Loads, one_more};
ghost use Rattle.mp_outside.specs.MemFiles.{MemFile, has_name};

use crate::NoMemory;
use std::alloc::Global;
use std::marker::Model;

// A file in memory, with the count of its failed loads.
#[derive(Drop)]
pub struct HeldFile {
    name: String,
    bytes: Vec<u8>,
    faults: u64,
}

impl Model for HeldFile {
    ghost Value = { MemFile };

    ghost view = { λ f. record { name = string_bytes f.name; bytes = f.bytes.items; faults = f.faults } };
}

impl HeldFile {
    pub fn new(alloc: Global, name: &str, bytes: Vec<u8>, faults: u64) -> Result<HeldFile, NoMemory>
        ensures { IfOk result (λ f. f ≡ record { name = name.now; bytes = bytes.items; faults = faults }) }
    {
        Ok(HeldFile {
            name: String::from_str(alloc, name)?,
            bytes,
            faults,
        })
    }

    pub fn has_name(&self, name: &str) -> bool
        ensures { result ≡ has_name name.now self.now }
    {
        self.name.as_str() == name
    }

    pub fn bytes(&self) -> &[u8]
        ensures { result.now ≡ self.now.bytes }
    {
        &self.bytes
    }

    pub fn replace_bytes(&mut self, bytes: Vec<u8>)
        ensures { self.new ≡ record self.old { bytes = bytes.items } }
    {
        self.bytes = bytes;
    }

    pub fn count_fault(&mut self)
        ensures value { self.new ≡ record self.old { faults = one_more self.old.faults } }
        ensures later { self.old.faults ≤ self.new.faults }
    {
        self.faults = self.faults.saturating_add(1);
    }
}

// The index of the file with this name.
pub fn position_of(files: &[HeldFile], name: &str) -> Option<usize>
    ensures { result ≡ position (has_name name.now) files.now }
{
    files.iter().position(|file| file.has_name(name))
}

// Puts the bytes of a text from a place on into the front of a buffer, at most so many.
pub fn copy_from(text: &[u8], place: u64, most: u64, buf: &mut [u8]) -> u64
    ensures count { result ≡ min (min (length text.now - place) (length buf.new)) most }
    ensures bytes { 0 < most → Loads text.now place result buf.new }
{
    if place >= text.len() as u64 {
        return 0;
    }
    let rest = &text[place as usize..];
    let count = (rest.len() as u64).min(buf.len() as u64).min(most);
    buf[..count as usize].copy_from_slice(&rest[..count as usize]);
    count
}
