//! What a folder does as a disk, without its counts.

ghost use Rattle.std.specs.Prelude.{◌≤◌, length};

use crate::folder::{Folder, Unsynced};
use crate::listing::Listing;
use arrayvec::ArrayString;
use ssq_outside::Name;
use ssq_plans::{NameText, read_name};
use std::alloc::Global;
use std::fmt::{Display, Write};
use std::fs::OpenFile;
use std::io::{ErrorKind, Read};
use std::rt::Files;
use std::{fs, io};

/// The longest path of a checkpoint's folder, in bytes.
pub(crate) const ROOT_CAP: usize = 192;

/// The longest path inside it: the root's, and at most 36 bytes of a name.
const PATH_CAP: usize = 256;

type PathText = ArrayString<PATH_CAP>;

/// A folder that holds a checkpoint. Each file is written in its folder `aside` under a number, and renamed from there.
#[derive(Drop)]
pub(crate) struct Checkpoint<R> {
    rt: R,
    root: ArrayString<ROOT_CAP>,
    /// Whether the files aside of an earlier run are gone.
    is_clear: bool,
    /// The number of the next file aside.
    next: u64,
    unsynced: Unsynced,
}

impl<R: Files + Drop> Checkpoint<R> {
    /// The checkpoint in the folder of this path, if there is one. Nothing is done yet.
    pub(crate) fn new(rt: R, root: &str) -> Checkpoint<R>
        requires { length root.now ≤ ROOT_CAP }
    {
        Checkpoint {
            rt,
            root: ArrayString::from(root).unwrap(),
            is_clear: false,
            next: 0,
            unsynced: Unsynced::All,
        }
    }

    /// Makes a file aside, and gives its number.
    pub(crate) fn stage(&mut self) -> io::Result<(u64, R::File)> {
        self.clear()?;
        let number = self.next;
        self.next = number.saturating_add(1);
        let path = self.aside(number)?;
        match if_there(fs::create(&self.rt, path.as_str()))? {
            Some(file) => Ok((number, file)),
            None => {
                self.make_all(Folder::Aside)?;
                Ok((number, fs::create(&self.rt, path.as_str())?))
            }
        }
    }

    /// Takes a file aside away.
    pub(crate) fn discard(&self, number: u64) -> io::Result<()> {
        fs::remove_file(&self.rt, self.aside(number)?.as_str())
    }

    /// Renames a file aside to a name's path.
    pub(crate) fn publish(&mut self, number: u64, name: Name) -> io::Result<()> {
        let from = self.aside(number)?;
        let to = self.path(NameText(name))?;
        let folder = Folder::of(name);
        self.unsynced.add(folder);
        match if_there(fs::rename(&self.rt, from.as_str(), to.as_str()))? {
            Some(()) => Ok(()),
            None => {
                self.make_all(folder)?;
                fs::rename(&self.rt, from.as_str(), to.as_str())
            }
        }
    }

    /// Removes a name's file, where there is one.
    pub(crate) fn remove(&mut self, name: Name) -> io::Result<()> {
        let path = self.path(NameText(name))?;
        self.unsynced.add(Folder::of(name));
        if_there(fs::remove_file(&self.rt, path.as_str()))?;
        Ok(())
    }

    /// Syncs each folder whose names may have changed. After an error all of them are still to be synced.
    pub(crate) fn sync(&mut self) -> io::Result<()> {
        self.clear()?;
        match &self.unsynced {
            Unsynced::All => self.sync_all()?,
            Unsynced::These(folders) => {
                for folder in folders.as_slice() {
                    self.sync_folder(*folder)?;
                }
            }
        }
        self.unsynced = Unsynced::none();
        Ok(())
    }

    /// The bytes of a name's file, where there is one.
    pub(crate) fn read(&self, alloc: Global, name: Name) -> io::Result<Option<Vec<u8>>> {
        let path = self.path(NameText(name))?;
        match if_there(fs::open(&self.rt, path.as_str()))? {
            None => Ok(None),
            Some(mut file) => {
                let mut bytes = Vec::new(alloc);
                file.read_to_end(&mut bytes)?;
                Ok(Some(bytes))
            }
        }
    }

    /// The names that have a file, in their order. What has no name's path is passed over.
    pub(crate) fn names(&self, alloc: Global) -> io::Result<Vec<Name>> {
        let mut names = Vec::new(alloc);
        for folder in [Folder::Root, Folder::Plans, Folder::Commits, Folder::Sink] {
            self.gather(folder, &mut names)?;
        }
        let mut partitions = self.list(Folder::State)?;
        for _ in 0..u64::MAX {
            if !partitions.advance()? {
                break;
            }
            if let Some(number) = partition_of(partitions.name()) {
                self.gather(Folder::Partition(number), &mut names)?;
            }
        }
        names.sort_unstable();
        Ok(names)
    }

    /// Adds the names of one folder, in any order.
    fn gather(&self, folder: Folder, names: &mut Vec<Name>) -> io::Result<()> {
        let mut entries = self.list(folder)?;
        for _ in 0..u64::MAX {
            if !entries.advance()? {
                break;
            }
            if let Some(name) = name_in(folder, entries.name()) {
                names.push(name)?;
            }
        }
        Ok(())
    }

    /// Takes the files away that an earlier run left aside.
    fn clear(&mut self) -> io::Result<()> {
        if self.is_clear {
            return Ok(());
        }
        let mut entries = self.list(Folder::Aside)?;
        for _ in 0..u64::MAX {
            if !entries.advance()? {
                break;
            }
            if let Some(number) = number_of(entries.name()) {
                if_there(self.discard(number))?;
            }
        }
        self.is_clear = true;
        Ok(())
    }

    /// Syncs every folder that is there.
    fn sync_all(&self) -> io::Result<()> {
        for folder in [
            Folder::Parent,
            Folder::Root,
            Folder::Plans,
            Folder::Commits,
            Folder::Sink,
            Folder::State,
        ] {
            self.sync_folder(folder)?;
        }
        let mut partitions = self.list(Folder::State)?;
        for _ in 0..u64::MAX {
            if !partitions.advance()? {
                break;
            }
            if let Some(number) = partition_of(partitions.name()) {
                self.sync_folder(Folder::Partition(number))?;
            }
        }
        Ok(())
    }

    /// Syncs a folder. One that is not there has no names to lose.
    fn sync_folder(&self, folder: Folder) -> io::Result<()> {
        let path = self.path(folder)?;
        match if_there(fs::open(&self.rt, path.as_str()))? {
            Some(opened) => opened.sync_all(),
            None => Ok(()),
        }
    }

    /// The names in a folder. One that is not there has none.
    fn list(&self, folder: Folder) -> io::Result<Listing<R::Dir>> {
        let path = self.path(folder)?;
        Ok(Listing::new(if_there(self.rt.open_dir(path.as_str()))?))
    }

    /// Makes a folder and those above it, where they are missing.
    fn make_all(&mut self, folder: Folder) -> io::Result<()> {
        self.make(Folder::Root)?;
        self.make(folder.above())?;
        self.make(folder)
    }

    /// Makes a folder where it is missing.
    fn make(&mut self, folder: Folder) -> io::Result<()> {
        let path = self.path(folder)?;
        match fs::create_dir(&self.rt, path.as_str()) {
            Ok(()) => {
                self.unsynced.add(folder.above());
                Ok(())
            }
            Err(e) => match e.kind() {
                ErrorKind::AlreadyExists => Ok(()),
                _ => Err(e),
            },
        }
    }

    /// The path of a file aside.
    fn aside(&self, number: u64) -> io::Result<PathText> {
        self.path(format_args!("{}{number}", Folder::Aside))
    }

    /// The path of what lies in the checkpoint.
    fn path(&self, inside: impl Display + Drop) -> io::Result<PathText> {
        let mut path = PathText::new();
        match write!(path, "{}/{inside}", self.root) {
            Ok(()) => Ok(path),
            Err(_) => Err(io::Error::from(ErrorKind::InvalidFilename)),
        }
    }
}

/// `None` where a file or a folder is not there.
fn if_there<T>(got: io::Result<T>) -> io::Result<Option<T>> {
    match got {
        Ok(value) => Ok(Some(value)),
        Err(e) => match e.kind() {
            ErrorKind::NotFound => Ok(None),
            _ => Err(e),
        },
    }
}

/// The name whose file an entry of a folder is.
fn name_in(folder: Folder, entry: &str) -> Option<Name> {
    let mut text = PathText::new();
    write!(text, "{folder}{entry}").ok()?;
    read_name(text.as_bytes())
}

/// The partition whose folder an entry of `state` is.
fn partition_of(entry: &str) -> Option<u32> {
    u32::try_from(number_of(entry)?).ok()
}

/// The number that an entry is named by. Only the spelling in which it is written is one: `007` and `+5` are other files.
fn number_of(entry: &str) -> Option<u64> {
    if entry != "0" && (entry.starts_with('0') || entry.starts_with('+')) {
        return None;
    }
    entry.parse().ok()
}
