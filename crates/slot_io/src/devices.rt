//! The files of the current folder, and standard output.
ghost use Rattle.std.specs.Prelude.{◌≡◌, ◌<◌, ℕ, List, None, Option, IfOk};
ghost use Rattle.std.specs.Io.{ReadsAtMost};
ghost use Rattle.std.specs.Io.KnownBytes.{Keeps, ReadConsumes};
ghost use Rattle.slot_io.specs.Devices.{file_name, left_of_file};
ghost use Rattle.slot_io.specs.Refusals.{read_answer, write_answer};

use crate::counts::raise;
use crate::refusal::IoRefusal;
use crate::shelf::Shelf;
use crate::sink::Sink;
use admit_core::{PerSlot, Slot};
use std::io::{Read, Write};
use std::rt::Files;
use std::{fs, io};

/// A folder whose files are opened by their names, as the current folder.
pub trait Folder {
    type File: Read + Drop;

    /// The bytes of the file of each name, where the folder tells them.
    ghost bytes: { Self → List ℕ → Option (List ℕ) };

    /// Opens the file of this name, with nothing of it read.
    fn open(&self, name: &str) -> io::Result<Self::File>
        ensures { IfOk result (λ file. Keeps (bytes self.now name.now)
            (Self.File.remaining file)) };
}

/// What the files of the system hold is not told.
impl<R: Files> Folder for R {
    type File = R::File;

    ghost bytes = { λ _ _. None };

    fn open(&self, name: &str) -> io::Result<R::File> {
        fs::open(self, name)
    }
}

/// The slots' files in a folder, as `groups.csv`, and `chain.txt` for the chain.
///
/// A file that can't be opened or read counts a fault.
#[derive(Drop)]
pub struct DirShelf<R: Folder + Drop> {
    rt: R,
    files: PerSlot<Option<R::File>>,
    taken: PerSlot<u64>,
    faults: PerSlot<u64>,
}

impl<R: Folder + Drop> DirShelf<R> {
    ghost use Rattle.admit_core.specs.declared.slot.Slot.{Slot};
    ghost use Rattle.slot_io.specs.Devices.{dir_faults, dir_left, dir_taken};

    /// A shelf whose files are opened at their first read.
    pub fn new(rt: R) -> DirShelf<R>
        ensures left { (slot : Slot) → dir_left R.bytes R.File.remaining result slot
            ≡ R.bytes rt (file_name slot) }
        ensures faults { (slot : Slot) → dir_faults result slot ≡ 0 }
        ensures taken { (slot : Slot) → dir_taken result slot ≡ 0 }
    {
        DirShelf {
            rt,
            files: PerSlot::from_fn(
                |_| -> Option<R::File>
                    ensures { result ≡ None }
                { None },
            ),
            taken: PerSlot::splat(0),
            faults: PerSlot::splat(0),
        }
    }
}

/// The file of a slot.
fn file_name(slot: Slot) -> &'static str
    ensures { result.now ≡ file_name slot }
{
    match slot {
        Slot::Groups => "groups.csv",
        Slot::Programmes => "programmes.csv",
        Slot::Schools => "schools.csv",
        Slot::Rankings => "rankings.csv",
        Slot::Boarding => "boarding.csv",
        Slot::Wishes => "wishes.csv",
        Slot::State => "state.csv",
        Slot::Ceilings => "ceilings.csv",
        Slot::Answers => "answers.csv",
        Slot::Chain => "chain.txt",
    }
}

/// What this answer of std to a read means: any error is a failure of the device.
fn read_answer(read: io::Result<usize>) -> Result<usize, IoRefusal>
    ensures { result ≡ read_answer read }
{
    read.map_err(|_| IoRefusal::Failed)
}

/// What this answer of std to a write means: any error is a failure of the device, and a write that
/// takes no byte is one too.
fn write_answer(written: io::Result<usize>) -> Result<usize, IoRefusal>
    ensures { result ≡ write_answer written }
{
    match written {
        Ok(count) if count > 0 => Ok(count),
        _ => Err(IoRefusal::Failed),
    }
}

/// Reads from the file, which is opened where it is not open yet.
fn read_file<R: Folder>(
    rt: &R,
    file: &mut Option<R::File>,
    name: &str,
    buf: &mut [u8],
) -> io::Result<usize>
    ensures bound { ReadsAtMost result buf.new }
    ensures bytes { ReadConsumes
        (left_of_file R.File.remaining (R.bytes rt.now name.now) file.old)
        (left_of_file R.File.remaining (R.bytes rt.now name.now) file.new) result buf.new }
{
    if let Some(file) = file {
        return file.read(buf);
    }
    let mut opened = rt.open(name)?;
    let count = opened.read(buf);
    *file = Some(opened);
    count
}

impl<R: Folder + Drop> Shelf for DirShelf<R> {
    ghost use Rattle.slot_io.specs.Devices.{dir_faults, dir_left, dir_taken};

    ghost left = { dir_left R.bytes R.File.remaining };

    ghost taken = { dir_taken };

    ghost faults = { dir_faults };

    fn read(&mut self, slot: Slot, buf: &mut [u8]) -> Result<usize, IoRefusal> {
        let file = self.files.get_mut(slot);
        let answer = read_answer(read_file(&self.rt, file, file_name(slot), buf));
        match answer {
            Ok(count) => raise(&mut self.taken, slot, count as u64),
            Err(_) => raise(&mut self.faults, slot, 1),
        }
        answer
    }
}

/// A sink over a writer of std.
#[derive(Drop)]
pub struct WriterSink<W: Write + Drop> {
    writer: W,
    faults: u64,
}

impl<W: Write + Drop> Sink for WriterSink<W> {
    ghost use Rattle.slot_io.specs.Devices.{writer_faults, writer_held};

    ghost held = { writer_held W.contents };

    ghost faults = { writer_faults };

    ghost may_lack = { ⊥ };

    fn write(&mut self, piece: &[u8]) -> Result<usize, IoRefusal> {
        let answer = write_answer(self.writer.write(piece));
        if answer.is_err() {
            self.faults = self.faults.saturating_add(1);
        }
        answer
    }
}

/// Standard output as a writer. What it holds is not told.
#[derive(Drop)]
pub struct Printed<R: Print + Drop> {
    rt: R,
}

impl<R: Print + Drop> Write for Printed<R> {
    fn write(&mut self, piece: &[u8]) -> io::Result<usize> {
        self.rt.write_some(piece)
    }

    fn flush(&mut self) -> io::Result<()> {
        Ok(())
    }
}

/// Standard output.
pub type StdSink<R> = WriterSink<Printed<R>>;

impl<R: Print + Drop> WriterSink<Printed<R>> {
    ghost use Rattle.slot_io.specs.Devices.{writer_faults};

    /// The standard output of this runtime, with no failure counted.
    pub fn new(rt: R) -> StdSink<R>
        ensures { writer_faults result ≡ 0 }
    {
        WriterSink {
            writer: Printed { rt },
            faults: 0,
        }
    }
}
