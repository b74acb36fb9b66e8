// An image in memory.
ghost use Rattle.std.specs.Prelude.{◌≡◌, ℕ, ◌+◌, ◌-◌, ◌*◌, ◌/◌, ◌%◌, ◌^◌, ◌<◌, ◌≤◌, length, slice_get, slice_index, slice_range, replicate};
ghost use Rattle.std.specs.Prelude.{if◌then◌else◌, IsTrue, OnOk, OnErr, IfOk, ◌↔◌};
ghost use Rattle.std.specs.Option.{option_copied};
ghost use Rattle.btr_rack.specs.Rack.{pasted};
ghost use Rattle.btr_rack.specs.Image.{bytes_in, kept_byte, patched, page_at, is_named, opened_for, shortened, zeros, Patches, PatchesPart, SpoilsRange};

use btr_base::Memory;
use std::alloc::Global;
use std::collections::BTreeMap;
use std::marker::Model;

const PAGE_SIZE: usize = 4096;

type Page = [u8; PAGE_SIZE];

/// An image: its pages of 4096 bytes, but for some that are all zeros.
#[derive(Drop)]
pub(crate) struct Image {
    name: String,
    len: u64,
    write: bool,
    pages: BTreeMap<u64, Page>,
}

impl Model for Image {
    ghost use Rattle.std.specs.Prelude.{◌<◌, ◌^◌};
    ghost use Rattle.std.specs.String.{string_bytes};
    ghost use Rattle.btr_rack.specs.Image.{MemoryImage};

    ghost Value = { MemoryImage };

    ghost view = { λ image. record { slot = record { name = string_bytes image.name; len = image.len; write = image.write }; pages = image.pages.entries } };

    ghost invariant = { λ image. image.len < 2 ^ 63 };
}

impl Image {
    /// An image of zeros.
    pub(crate) fn zeros(alloc: Global, name: &str, len: u64) -> Result<Image, Memory>
        requires { len < 2 ^ 63 }
        ensures { IfOk result (λ image. image ≡ zeros name.now len) }
    {
        match String::from_str(alloc, name) {
            Ok(name) => Ok(Image {
                name,
                len,
                write: false,
                pages: BTreeMap::new(alloc),
            }),
            Err(_) => Err(Memory),
        }
    }

    pub(crate) fn is_named(&self, name: &str) -> bool
        ensures { result ≡ is_named name.now self.now }
    {
        self.name.as_str() == name
    }

    pub(crate) fn name(&self) -> &str
        ensures name { result.now ≡ self.now.slot.name }
        ensures short { self.now.slot.len < 2 ^ 63 }
    {
        self.name.as_str()
    }

    pub(crate) fn len(&self) -> u64
        ensures len { result ≡ self.now.slot.len }
        ensures bound { result < 2 ^ 63 }
    {
        self.len
    }

    pub(crate) fn open(&mut self, write: bool)
        ensures opened { self.new ≡ opened_for write self.old }
        ensures short { self.new.slot.len < 2 ^ 63 }
    {
        self.write = write;
    }

    /// The byte at a place, or `None` past the end.
    pub(crate) fn byte(&self, at: u64) -> Option<u8>
        ensures { result ≡ slice_get (bytes_in self.now) at }
    {
        if at < self.len {
            Some(byte_of(
                page_of(&self.pages, at / PAGE_SIZE as u64),
                at as usize % PAGE_SIZE,
            ))
        } else {
            None
        }
    }

    /// Fills the buffer with the bytes from `off` on.
    pub(crate) fn read(&self, off: u64, buf: &mut [u8])
        requires { off + length buf.old ≤ self.now.slot.len }
        ensures { buf.new ≡ slice_range (bytes_in self.now) off (off + length buf.old) }
    {
        let _len = self.len;
        read_pages(&self.pages, off, buf);
    }

    /// Writes over the bytes from `off` on. After a refusal that range holds any bytes.
    pub(crate) fn write(&mut self, off: u64, bytes: &[u8]) -> Result<(), Memory>
        requires { off + length bytes.now ≤ self.old.slot.len }
        ensures slot { self.new.slot ≡ self.old.slot }
        ensures written { OnOk result (bytes_in self.new ≡ pasted (bytes_in self.old) off bytes.now) }
        ensures refused { OnErr result (SpoilsRange self.old self.new off (length bytes.now)) }
    {
        let _len = self.len;
        write_pages(&mut self.pages, off, bytes)
    }

    /// Writes a byte over `len` bytes from `off` on. After a refusal that range holds any bytes.
    pub(crate) fn fill(&mut self, off: u64, len: usize, byte: u8) -> Result<(), Memory>
        requires { off + len ≤ self.old.slot.len }
        ensures slot { self.new.slot ≡ self.old.slot }
        ensures filled { OnOk result (bytes_in self.new ≡ pasted (bytes_in self.old) off (replicate len byte)) }
        ensures refused { OnErr result (SpoilsRange self.old self.new off (length (replicate len byte))) }
    {
        let _len = self.len;
        fill_pages(&mut self.pages, off, len, byte)
    }

    /// Shortens the image to `len` bytes, or says that it is shorter.
    pub(crate) fn cut(&mut self, len: u64) -> bool
        ensures cut { IsTrue result ↔ (len ≤ self.old.slot.len) }
        ensures shortened { self.new ≡ (if result then shortened len self.old else self.old) }
    {
        if len > self.len {
            return false;
        }
        self.len = len;
        true
    }

    /// The page of a number, if it is kept.
    pub(crate) fn page(&self, index: u64) -> Option<&[u8]>
        ensures { option_copied result ≡ page_at self.now.pages index }
    {
        match self.pages.get(&index) {
            Some(page) => Some(page),
            None => None,
        }
    }
}

fn page_of_byte(byte: u8) -> Page
    ensures { (k : ℕ) → k < 4096 → slice_index result k ≡ byte }
{
    [byte; PAGE_SIZE]
}

fn page_of(pages: &BTreeMap<u64, Page>, index: u64) -> Page
    ensures { (k : ℕ) → k < 4096 → slice_index result k ≡ kept_byte pages.now.entries (4096 * index + k) }
{
    match pages.get(&index) {
        Some(page) => *page,
        None => page_of_byte(0),
    }
}

fn byte_of(page: Page, within: usize) -> u8
    requires { within < 4096 }
    ensures { result ≡ slice_index page within }
{
    page[within]
}

// A page with a piece written over its bytes.
fn page_with(mut page: Page, within: usize, piece: &[u8]) -> Page
    requires { within + length piece.now ≤ 4096 }
    ensures { (k : ℕ) → k < 4096 → slice_index result k ≡ patched (slice_index page k) within piece.now k }
{
    page[within..within + piece.len()].copy_from_slice(piece);
    page
}

// Writes over the bytes of one page.
fn write_page(pages: &mut BTreeMap<u64, Page>, at: u64, piece: &[u8]) -> Result<(), Memory>
    requires { at % 4096 + length piece.now ≤ 4096 }
    ensures written { OnOk result (Patches pages.old.entries pages.new.entries at piece.now) }
    ensures refused { OnErr result ((i : ℕ) → kept_byte pages.new.entries i ≡ kept_byte pages.old.entries i) }
{
    let index = at / PAGE_SIZE as u64;
    let page = page_with(page_of(pages, index), at as usize % PAGE_SIZE, piece);
    match pages.insert(index, page) {
        Ok(_) => Ok(()),
        Err(_) => Err(Memory),
    }
}

// How many of `left` bytes from `at` on lie in the page of the first.
fn in_page(at: u64, left: usize) -> usize
    ensures within { at % 4096 + result ≤ 4096 }
    ensures most { result ≤ left }
    ensures some { 0 < left → 0 < result }
{
    left.min(PAGE_SIZE - at as usize % PAGE_SIZE)
}

// Writes over the bytes from `off` on; where memory runs out, over a first part of them.
fn write_pages(pages: &mut BTreeMap<u64, Page>, off: u64, bytes: &[u8]) -> Result<(), Memory>
    requires { off + length bytes.now < 2 ^ 63 }
    ensures written { OnOk result (Patches pages.old.entries pages.new.entries off bytes.now) }
    ensures refused { OnErr result (PatchesPart pages.old.entries pages.new.entries off bytes.now) }
{
    let mut done = 0;
    while done < bytes.len() {
        let at = off + done as u64;
        let end = done + in_page(at, bytes.len() - done);
        write_page(pages, at, &bytes[done..end])?;
        done = end;
    }
    Ok(())
}

// Fills the buffer from one page.
fn read_page(pages: &BTreeMap<u64, Page>, at: u64, buf: &mut [u8])
    requires { at % 4096 + length buf.old ≤ 4096 }
    ensures { (k : ℕ) → k < length buf.old → slice_index buf.new k ≡ kept_byte pages.now.entries (at + k) }
{
    let within = at as usize % PAGE_SIZE;
    match pages.get(&(at / PAGE_SIZE as u64)) {
        Some(page) => buf.copy_from_slice(&page[within..within + buf.len()]),
        None => buf.fill(0),
    }
}

// Fills the buffer with the bytes from `off` on.
fn read_pages(pages: &BTreeMap<u64, Page>, off: u64, buf: &mut [u8])
    requires { off + length buf.old < 2 ^ 63 }
    ensures { (k : ℕ) → k < length buf.old → slice_index buf.new k ≡ kept_byte pages.now.entries (off + k) }
{
    let mut done = 0;
    while done < buf.len() {
        let at = off + done as u64;
        let end = done + in_page(at, buf.len() - done);
        read_page(pages, at, &mut buf[done..end]);
        done = end;
    }
}

// Writes a byte over `len` bytes from `off` on; where memory runs out, over a first part of them.
fn fill_pages(pages: &mut BTreeMap<u64, Page>, off: u64, len: usize, byte: u8) -> Result<(), Memory>
    requires { off + len < 2 ^ 63 }
    ensures written { OnOk result (Patches pages.old.entries pages.new.entries off (replicate len byte)) }
    ensures refused { OnErr result (PatchesPart pages.old.entries pages.new.entries off (replicate len byte)) }
{
    let page = page_of_byte(byte);
    let mut done = 0;
    while done < len {
        let at = off + done as u64;
        let count = in_page(at, len - done);
        write_page(pages, at, &page[..count])?;
        done += count;
    }
    Ok(())
}
