// Files in memory.
ghost use Rattle.std.specs.Prelude.{◌≡◌, ◌≤◌, Some, length, option_map};
ghost use Rattle.link_io.specs.FileBytes.{file_bytes};
ghost use Rattle.link_io.specs.Outside.{ReadsAt};

use crate::files::{Failed, Files};

/// A file in memory.
#[derive(Debug, Drop)]
pub struct MemFile {
    pub name: String,
    pub bytes: Vec<u8>,
}

/// Files in memory. The calls of `read_at` are numbered from 1, and those whose numbers are listed fail.
#[derive(Debug, Drop)]
pub struct MemFiles {
    pub files: Vec<MemFile>,
    pub failing: Vec<u64>,
    pub calls: u64,
    pub faults: u64,
}

impl Files for MemFiles {
    ghost holds = { λ f name. Some (file_bytes f.files.items name) };

    ghost faults = { λ f. f.faults };

    fn read_at(&mut self, name: &str, from: u64, buf: &mut [u8]) -> Result<usize, Failed> {
        self.calls = self.calls.saturating_add(1);
        if self.failing.contains(&self.calls) {
            self.faults = self.faults.saturating_add(1);
            return Err(Failed);
        }
        let Some(bytes) = bytes_of(&self.files, name) else {
            self.faults = self.faults.saturating_add(1);
            return Err(Failed);
        };
        Ok(copy_from(bytes, from, buf))
    }
}

// The bytes of the first file of the name.
fn bytes_of<'a>(files: &'a [MemFile], name: &str) -> Option<&'a Vec<u8>>
    ensures { option_map (λ bytes. bytes.now.items) result ≡ file_bytes files.now name.now }
{
    for file in files {
        if file.name.as_str() == name {
            return Some(&file.bytes);
        }
    }
    None
}

// Copies the bytes from a place on, as many as there are and fit.
fn copy_from(bytes: &[u8], from: u64, buf: &mut [u8]) -> usize
    ensures within { result ≤ length buf.old }
    ensures read { ReadsAt bytes.now from buf.old buf.new result }
{
    let Ok(from) = usize::try_from(from) else {
        return 0;
    };
    if from >= bytes.len() {
        return 0;
    }
    let rest = &bytes[from..];
    let count = rest.len().min(buf.len());
    buf[..count].copy_from_slice(&rest[..count]);
    count
}
