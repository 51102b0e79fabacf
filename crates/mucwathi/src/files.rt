//! Files read and written.
use mucwathi_arguments::last_name;
use std::alloc::{AllocError, Global};
use std::collections::HashSet;
use std::fs::File;
use std::io::{Read, Write};
use std::path::{Path, PathBuf};
use std::{fs, io};

/// Why a file is not written.
#[derive(Debug, Drop)]
pub(crate) struct Unwritten {
    /// The file that stands in the way, if one does.
    pub stands: Option<String>,
    pub error: io::Error,
}

impl From<io::Error> for Unwritten {
    fn from(error: io::Error) -> Unwritten {
        Unwritten {
            stands: None,
            error,
        }
    }
}

impl From<AllocError> for Unwritten {
    fn from(refused: AllocError) -> Unwritten {
        Unwritten::from(io::Error::from(refused))
    }
}

/// What a file holds, or standard input where none is named.
pub(crate) fn read(rt: &HostRuntime, file: Option<&str>) -> io::Result<Vec<u8>> {
    let mut text = Vec::new(rt.alloc());
    match file {
        Some(path) => {
            let mut file = File::open(rt, path)?;
            file.read_to_end(&mut text)?;
        }
        None => {
            rt.stdin().read_to_end(&mut text)?;
        }
    }
    Ok(text)
}

fn beside(rt: &HostRuntime, path: &str) -> Result<String, AllocError> {
    let alloc = rt.alloc();
    format!(in alloc; "{path}.mucwathi-new")
}

fn fill(file: &mut File, out: &[u8]) -> io::Result<()> {
    file.write_all(out)?;
    file.sync_all()
}

// Puts a file that was written into the place of another, if there is one, whose permissions it gets.
fn replace(rt: &HostRuntime, new: &str, path: &str) -> io::Result<()> {
    if let Ok(metadata) = fs::metadata(rt, path) {
        fs::set_permissions(rt, new, metadata.permissions())?;
    }
    fs::rename(rt, new, path)
}

// Why there is no new file.
fn not_created(new: String, error: io::Error) -> Unwritten {
    if error.kind() != io::ErrorKind::AlreadyExists {
        return Unwritten::from(error);
    }
    Unwritten {
        stands: Some(new),
        error,
    }
}

// Fills a new file, and puts it into the place of another.
fn fill_and_replace(
    rt: &HostRuntime,
    file: &mut File,
    new: &str,
    path: &str,
    out: &[u8],
) -> io::Result<()> {
    fill(file, out)?;
    replace(rt, new, path)
}

// Writes the whole of a file to a new one beside it, which then takes its place.
fn write_beside(rt: &HostRuntime, path: &str, out: &[u8]) -> Result<(), Unwritten> {
    let new = beside(rt, path)?;
    let mut file = match File::create_new(rt, new.as_str()) {
        Ok(file) => file,
        Err(error) => return Err(not_created(new, error)),
    };
    match fill_and_replace(rt, &mut file, new.as_str(), path, out) {
        Ok(()) => Ok(()),
        Err(error) => {
            let _ = fs::remove_file(rt, new.as_str());
            Err(Unwritten::from(error))
        }
    }
}

// The name of a file that is not there: that of its folder, and its own.
fn name_in_folder(rt: &HostRuntime, path: Path<'_>) -> io::Result<PathBuf> {
    let folder = match path.parent() {
        Some(folder) => folder.as_os_str(),
        None => "",
    };
    let folder = if folder.is_empty() { "." } else { folder };
    let real = fs::canonicalize(rt, folder)?;
    let own = path.file_name().unwrap_or("");
    Ok(real.join(rt.alloc(), own)?)
}

// The name of a file to which all links to it lead.
fn real_name(rt: &HostRuntime, path: &str) -> io::Result<PathBuf> {
    match fs::canonicalize(rt, path) {
        Ok(real) => Ok(real),
        Err(error) => {
            if error.kind() == io::ErrorKind::NotFound {
                name_in_folder(rt, Path::new(path))
            } else {
                Err(error)
            }
        }
    }
}

/// The files that are read or written, each by the name to which all links lead.
#[derive(Drop)]
pub(crate) struct Taken {
    files: HashSet<PathBuf>,
}

impl Taken {
    /// Some files that are read. One that can't be found is not taken: it is not read either.
    pub(crate) fn of(rt: &HostRuntime, files: &[&str]) -> Result<Taken, AllocError> {
        let mut taken = Taken {
            files: HashSet::new(rt.alloc()),
        };
        for file in files.iter() {
            taken.add(rt, *file)?;
        }
        Ok(taken)
    }

    fn note(&mut self, real: PathBuf) -> Result<(), AllocError> {
        self.files.insert(real)?;
        Ok(())
    }

    fn add(&mut self, rt: &HostRuntime, file: &str) -> Result<(), AllocError> {
        match fs::canonicalize(rt, file) {
            Ok(real) => self.note(real),
            Err(error) => {
                if error.kind() == io::ErrorKind::OutOfMemory {
                    Err(AllocError)
                } else {
                    Ok(())
                }
            }
        }
    }
}

/// Writes the whole of a file, or nothing: a fault leaves the old one. A link stays one.
pub(crate) fn write_whole(rt: &HostRuntime, path: &str, out: &[u8]) -> Result<(), Unwritten> {
    match fs::canonicalize(rt, path) {
        Ok(real) => write_beside(rt, real.to_string_lossy(), out),
        Err(_) => write_beside(rt, path, out),
    }
}

// Why nothing is written over a file.
fn taken_already(alloc: Global, path: &str) -> Result<Unwritten, AllocError> {
    Ok(Unwritten {
        stands: Some(path.to_string(alloc)?),
        error: io::Error::other("it is a file that is read, or written already"),
    })
}

/// Writes the whole of a file as well, but over none that is taken. It is taken then. Nothing is written for which memory is refused.
pub(crate) fn write_untaken(
    rt: &HostRuntime,
    taken: &mut Taken,
    path: &str,
    out: &[u8],
) -> Result<(), Unwritten> {
    let real = real_name(rt, path)?;
    if taken.files.contains(&real) {
        return Err(taken_already(rt.alloc(), path)?);
    }
    taken.files.reserve(1)?;
    write_beside(rt, real.to_string_lossy(), out)?;
    taken.note(real)?;
    Ok(())
}

/// Writes a file of the same name into a folder, whole, but over none that is taken.
pub(crate) fn write_into(
    rt: &HostRuntime,
    taken: &mut Taken,
    folder: &str,
    path: &str,
    out: &[u8],
) -> Result<(), Unwritten> {
    let alloc = rt.alloc();
    let name = last_name(path);
    let to = format!(in alloc; "{folder}/{name}")?;
    write_untaken(rt, taken, to.as_str(), out)
}

/// Writes to standard output.
pub(crate) fn write_out(rt: &HostRuntime, out: &[u8]) -> io::Result<()> {
    rt.stdout().write_all(out)
}

/// Writes to standard error; where that fails nothing can be told.
pub(crate) fn tell(rt: &HostRuntime, told: &[u8]) {
    let _ = rt.stderr().write_all(told);
}
