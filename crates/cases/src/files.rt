// The files of the cases.
use anyhow::anyhow;
use std::{fs, io};

// What came of reading a path; an error names the path.
fn from_path<T>(path: &str, read: io::Result<T>) -> anyhow::Result<T> {
    read.map_err(|error| anyhow!("{path}: {error}"))
}

// The names of the files in a folder that end so, in order.
pub fn names_in(rt: &HostRuntime, folder: &str, ending: &str) -> anyhow::Result<Vec<String>> {
    let heap = rt.alloc();
    let mut names = Vec::new(heap);
    for entry in from_path(folder, fs::read_dir(rt, folder))? {
        let entry = entry?;
        if let Some(name) = entry.file_name().strip_suffix(ending) {
            names.push(String::from_str(heap, name)?)?;
        }
    }
    names.sort()?;
    Ok(names)
}

// The bytes of a file.
pub fn bytes_in(rt: &HostRuntime, path: &str) -> anyhow::Result<Vec<u8>> {
    from_path(path, fs::read(rt, path))
}

// The text of a file.
pub fn text_in(rt: &HostRuntime, path: &str) -> anyhow::Result<String> {
    from_path(path, fs::read_to_string(rt, path))
}
