use super::folder::{copy_of, find_file};
use super::{Folder, List, LoadFault, Loaded, PutFault, Sink, Text};
use std::alloc::Global;

/// A folder in memory whose loads never fail, so that its count of read faults stays 0. A name that it doesn't
/// hold is read as the empty file. Of several files with one name it holds the first.
#[derive(Debug, Drop)]
pub struct HonestFolder {
    files: List<(Text, Text)>,
    names: List<Text>,
}

impl HonestFolder {
    ghost use Rattle.std.specs.Prelude.{◌≡◌, []};

    /// A folder of these files, each a name and its bytes.
    pub fn new(alloc: Global, files: List<(Text, Text)>) -> HonestFolder
        ensures { result ≡ record { files = files; names = [] } }
    {
        HonestFolder {
            files,
            names: List::new(alloc),
        }
    }
}

impl Folder for HonestFolder {
    ghost use Rattle.std.specs.Prelude.{◌≡◌, ◌≢◌, Some, Err};
    ghost use Rattle.mf_io.specs.Folder.{Loads, named_or_empty, unfailed};

    ghost held = { λ folder name. Some (named_or_empty folder.files name) };

    // Each load that is noted found its file.
    ghost log = { λ folder. unfailed folder.names };

    fn load(&mut self, alloc: Global, name: &str, most: usize) -> Result<Loaded, LoadFault>
        ensures answer { Loads (Some (named_or_empty self.old.files name.now)) name.now most
            (unfailed self.old.names) (unfailed self.new.names) result }
        ensures kept { self.new.files ≡ self.old.files }
        ensures memory { result ≡ Err LoadFault.Memory → self.new ≡ self.old }
        ensures honest { result ≢ Err LoadFault.Failed }
    {
        let copy = Text::from_slice(alloc, name.as_bytes())?;
        let loaded = match find_file(self.files.as_slice(), name.as_bytes()) {
            Some(bytes) => copy_of(alloc, bytes.as_slice(), most)?,
            None => Loaded::Whole(Text::new(alloc)),
        };
        self.names.push(copy)?;
        Ok(loaded)
    }
}

/// A sink in memory whose puts never fail, so that its count of write faults stays 0.
#[derive(Debug, Drop)]
pub struct HonestSink {
    bytes: Text,
}

impl HonestSink {
    ghost use Rattle.std.specs.Prelude.{◌≡◌, []};

    /// The empty sink.
    pub fn new(alloc: Global) -> HonestSink
        ensures { result ≡ record { bytes = [] } }
    {
        HonestSink {
            bytes: Text::new(alloc),
        }
    }

    /// The bytes that were put so far.
    pub fn bytes(&self) -> &[u8]
        ensures { result.now ≡ self.now.bytes }
    {
        self.bytes.as_slice()
    }
}

impl Sink for HonestSink {
    ghost use Rattle.std.specs.Prelude.{◌≡◌, ◌≢◌, ◌<◌, IfOk, Some, Err, length};
    ghost use Rattle.mf_io.specs.Sink.{Puts};

    ghost written = { λ sink. Some sink.bytes };

    ghost faults = { λ _. 0 };

    fn put(&mut self, _alloc: Global, piece: &[u8]) -> Result<usize, PutFault>
        requires { 0 < length piece.now }
        ensures answer { Puts piece.now (Some self.old.bytes) (Some self.new.bytes) 0 0 result }
        ensures memory { result ≡ Err PutFault.Memory → self.new ≡ self.old }
        ensures honest { result ≢ Err PutFault.Failed }
        // A put takes the whole piece.
        ensures whole { IfOk result (λ n. n ≡ length piece.now) }
    {
        self.bytes.extend_from_slice(piece)?;
        Ok(piece.len())
    }
}
