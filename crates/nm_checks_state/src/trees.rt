//! Lines of names, bytes and limits: a tree of files.
use crate::fault::Fault;
use crate::replies::append_attributes;
use crate::text::{append, append_bytes, append_debug, append_mode, append_number};
use crate::words::{bytes, chosen, mode, number, small};
use nm_tree::{Listed, Tree};
use nm_types::{FileKind, FileRow, Memory, OpStatus, Refusal};
use std::alloc::Global;
use std::mem;

/// The tree that lines are about, and a copy that was made of it.
#[derive(Drop)]
pub(crate) struct Trees {
    now: Tree,
    kept: Tree,
}

#[derive(Clone, Copy)]
enum Verb {
    New,
    Copy,
    Swap,
    Find,
    Dir,
    File,
    Fill,
    Remove,
    Read,
    Write,
    Size,
    Attrs,
    List,
    Counts,
    Show,
}

const VERBS: [(&str, Verb); 15] = [
    ("new", Verb::New),
    ("copy", Verb::Copy),
    ("swap", Verb::Swap),
    ("find", Verb::Find),
    ("dir", Verb::Dir),
    ("file", Verb::File),
    ("fill", Verb::Fill),
    ("remove", Verb::Remove),
    ("read", Verb::Read),
    ("write", Verb::Write),
    ("size", Verb::Size),
    ("attrs", Verb::Attrs),
    ("list", Verb::List),
    ("counts", Verb::Counts),
    ("show", Verb::Show),
];

impl Trees {
    /// Two trees with no file but the root.
    pub(crate) fn new(alloc: Global) -> Result<Trees, Memory> {
        Ok(Trees {
            now: Tree::new(alloc)?,
            kept: Tree::new(alloc)?,
        })
    }

    /// What comes of a line, behind its first word.
    pub(crate) fn line(&mut self, words: &[&[u8]], out: &mut Vec<u8>) -> Result<(), Fault> {
        let [verb, args @ ..] = words else {
            return Err(Fault::Word);
        };
        match chosen(&VERBS, verb)? {
            Verb::New => self.now = Tree::new(*out.allocator())?,
            Verb::Copy => self.kept = self.now.copy()?,
            Verb::Swap => mem::swap(&mut self.now, &mut self.kept),
            Verb::Counts => return self.counts(out),
            Verb::Show => return self.show(out),
            verb => return self.on_file(verb, args, out),
        }
        Ok(append(out, verb)?)
    }

    // A line about a directory or a file, which stands first.
    fn on_file(&mut self, verb: Verb, args: &[&[u8]], out: &mut Vec<u8>) -> Result<(), Fault> {
        let [file, args @ ..] = args else {
            return Err(Fault::Word);
        };
        let file = number(file)?;
        match (verb, args) {
            (Verb::Read, [offset, count]) => self.read(file, number(offset)?, small(count)?, out),
            (Verb::Write, [offset, data]) => self.write(file, number(offset)?, data, out),
            (Verb::Size, [size]) => done(self.now.set_size(file, number(size)?), out),
            (Verb::Attrs, []) => self.attrs(file, out),
            (Verb::List, [after]) => self.list(file, number(after)?, out),
            (Verb::Fill, [count, size]) => self.fill(file, number(count)?, number(size)?, out),
            _ => self.on_name(verb, file, args, out),
        }
    }

    // A line about a name in a directory.
    fn on_name(
        &mut self,
        verb: Verb,
        dir: u64,
        args: &[&[u8]],
        out: &mut Vec<u8>,
    ) -> Result<(), Fault> {
        let [name, args @ ..] = args else {
            return Err(Fault::Word);
        };
        let name = bytes(*out.allocator(), name)?;
        self.named(verb, dir, name.items(), args, out)
    }

    fn named(
        &mut self,
        verb: Verb,
        dir: u64,
        name: &[u8],
        args: &[&[u8]],
        out: &mut Vec<u8>,
    ) -> Result<(), Fault> {
        match (verb, args) {
            (Verb::Find, []) => found(self.now.find(dir, name), out),
            (Verb::Remove, []) => found(self.now.remove(dir, name), out),
            (Verb::Dir, [bits]) => made(self.now.make_dir(dir, name, mode(bits)?), out),
            (Verb::File, [bits]) => made(self.now.make_file(dir, name, mode(bits)?, None), out),
            (Verb::File, [bits, verifier]) => {
                let verifier = Some(number(verifier)?);
                made(self.now.make_file(dir, name, mode(bits)?, verifier), out)
            }
            _ => Err(Fault::Word),
        }
    }

    fn read(&self, file: u64, offset: u64, count: u32, out: &mut Vec<u8>) -> Result<(), Fault> {
        match self.now.read(file, offset, count) {
            Ok((data, is_end)) => {
                append_bytes(out, data.items())?;
                Ok(append(out, if is_end { b" end" } else { b" more" })?)
            }
            Err(refusal) => refused(refusal, out),
        }
    }

    fn write(
        &mut self,
        file: u64,
        offset: u64,
        data: &[u8],
        out: &mut Vec<u8>,
    ) -> Result<(), Fault> {
        let data = bytes(*out.allocator(), data)?;
        done(self.now.write(file, offset, data.items()), out)
    }

    fn attrs(&self, file: u64, out: &mut Vec<u8>) -> Result<(), Fault> {
        match self.now.attrs(file) {
            Ok(attributes) => {
                append(out, b"ok")?;
                Ok(append_attributes(out, &attributes)?)
            }
            Err(status) => Ok(append_debug(out, &status)?),
        }
    }

    fn list(&self, dir: u64, after: u64, out: &mut Vec<u8>) -> Result<(), Fault> {
        match self.now.list(dir, after) {
            Ok(listing) => append_listing(listing.items(), out),
            Err(refusal) => refused(refusal, out),
        }
    }

    // Makes so many files of that size, each named by its number, and tells the last one's. It ends with the first that is refused.
    fn fill(&mut self, dir: u64, count: u64, size: u64, out: &mut Vec<u8>) -> Result<(), Fault> {
        let mut last = Ok(0);
        for _ in 0..count {
            let next = self.now.last_file().saturating_add(1);
            let name = format!(in *out.allocator(); "{next}")?;
            last = self.make_sized(dir, name.as_bytes(), size);
            match last {
                Ok(file) if file == next => {}
                _ => return made(last, out),
            }
        }
        made(last, out)
    }

    // Makes a file of that size.
    fn make_sized(&mut self, dir: u64, name: &[u8], size: u64) -> Result<u64, Refusal> {
        let file = self.now.make_file(dir, name, 0o644, None)?;
        self.now.set_size(file, size)?;
        Ok(file)
    }

    fn counts(&self, out: &mut Vec<u8>) -> Result<(), Fault> {
        append(out, b"count ")?;
        append_number(out, self.now.count() as u64)?;
        append(out, b" last ")?;
        append_number(out, self.now.last_file())?;
        append(out, b" change ")?;
        append_number(out, self.now.change())?;
        append(out, b" bytes ")?;
        Ok(append_number(out, self.now.total_size())?)
    }

    fn show(&self, out: &mut Vec<u8>) -> Result<(), Fault> {
        append_number(out, self.now.rows().len() as u64)?;
        append(out, b" rows")?;
        for row in self.now.rows() {
            append_file(out, row)?;
        }
        Ok(())
    }
}

// Writes why a call changed nothing.
fn refused(refusal: Refusal, out: &mut Vec<u8>) -> Result<(), Fault> {
    match refusal {
        Refusal::Status(status) => Ok(append_debug(out, &status)?),
        Refusal::Memory => Err(Fault::Memory),
    }
}

fn made(answer: Result<u64, Refusal>, out: &mut Vec<u8>) -> Result<(), Fault> {
    match answer {
        Ok(file) => Ok(append_number(out, file)?),
        Err(refusal) => refused(refusal, out),
    }
}

fn done(answer: Result<(), Refusal>, out: &mut Vec<u8>) -> Result<(), Fault> {
    match answer {
        Ok(()) => Ok(append(out, b"ok")?),
        Err(refusal) => refused(refusal, out),
    }
}

fn found(answer: Result<u64, OpStatus>, out: &mut Vec<u8>) -> Result<(), Fault> {
    match answer {
        Ok(file) => Ok(append_number(out, file)?),
        Err(status) => Ok(append_debug(out, &status)?),
    }
}

fn append_listing(listing: &[Listed], out: &mut Vec<u8>) -> Result<(), Fault> {
    append_number(out, listing.len() as u64)?;
    append(out, b" names")?;
    for listed in listing {
        append(out, b" ")?;
        append_number(out, listed.file)?;
        append(out, b" ")?;
        append_bytes(out, listed.name.items())?;
    }
    Ok(())
}

// Writes a file or a directory with all that is known of it.
fn append_file(out: &mut Vec<u8>, row: &FileRow) -> Result<(), Memory> {
    append(out, b"; ")?;
    append_number(out, row.number)?;
    append(out, b" in ")?;
    append_number(out, row.parent)?;
    append(out, b" ")?;
    append_bytes(out, row.name.items())?;
    append(out, b" ")?;
    append(out, kind_word(row.kind))?;
    append(out, b" ")?;
    append_mode(out, row.mode)?;
    append(out, b" change ")?;
    append_number(out, row.change)?;
    append_made(out, row.verifier)?;
    append(out, b" bytes ")?;
    append_bytes(out, row.bytes.items())
}

fn kind_word(kind: FileKind) -> &'static [u8] {
    match kind {
        FileKind::File => b"file",
        FileKind::Directory => b"dir",
    }
}

// Writes the verifier of the OPEN that made a file.
fn append_made(out: &mut Vec<u8>, verifier: Option<u64>) -> Result<(), Memory> {
    match verifier {
        Some(verifier) => {
            append(out, b" verifier ")?;
            append_number(out, verifier)
        }
        None => Ok(()),
    }
}
