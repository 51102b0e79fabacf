//! What of a task over files can't be done, whatever they hold.
ghost use Rattle.std.specs.Prelude.{◌≡◌, ◌↔◌, ◌<◌, ◌≤◌, ◌≢◌, ℕ, List, IsFalse, IsTrue, get_or, length};
ghost use Rattle.std.specs.Borrow.{Bor};
ghost use Rattle.std.specs.List.{list_any};
ghost use Rattle.std.specs.Str.{bytes_eq};
ghost use Rattle.mucwathi_arguments.specs.Misused.{AreCalled, IsMisuseTold, NamesDiffer, TellsShared, fills_folder, is_folder as is_a_folder, is_output as is_the_output, lacks_files, maps_over, name_in_folder, shares_map, shares_output, writes as is_writing};

use crate::task::{Rewriting, Target};
use std::path::Path;
use thiserror::Error;

/// Why a task over files is not done.
#[derive(Clone, Copy, Debug, Error)]
pub enum Misuse<'a> {
    /// Answers are to go into files, and none is named.
    #[error("--in-place and --out want files")]
    NoFiles,
    /// Several answers would go to standard output.
    #[error("several files want --in-place or --out FOLDER")]
    OneOutput,
    /// Several answers would have one source map.
    #[error("--source-map wants one file")]
    OneMap,
    /// The source map would be written over a file that is read.
    #[error("--source-map would write over a file that is read")]
    MapOverFile,
    /// Two answers would go into one file of a folder, which is called so.
    #[error("{0}: two files would be written to one of this name")]
    OneName(&'a str),
}

/// What a file is called without its folders.
pub fn last_name(path: &str) -> &str
    ensures { result.now ≡ name_in_folder path.now }
{
    Path::new(path).file_name().unwrap_or(path)
}

fn is_called(file: &str, name: &str) -> bool
    ensures { IsTrue result ↔ (name_in_folder file.now ≡ name.now) }
{
    last_name(file) == name
}

// Whether a file from a place on is called so.
fn is_met(files: &[&str], from: usize, name: &str) -> bool
    ensures met { IsTrue result → (j : ℕ) × (from ≤ j) × (j < length files.now) × ((d : Bor (List ℕ)) → name_in_folder (get_or files.now j d).now ≡ name.now) }
    ensures unmet { IsFalse result → (j : ℕ) (d : Bor (List ℕ)) → from ≤ j → j < length files.now → name_in_folder (get_or files.now j d).now ≢ name.now }
{
    'files: for j in from..files.len() {
        if is_called(files[j], name) {
            return true;
        }
    }
    false
}

// The name that two files share without their folders, if two do.
fn shared_name<'a>(files: &[&'a str]) -> Option<&'a str>
    ensures { TellsShared files.now result }
{
    'files: for i in 0..files.len() {
        let name = last_name(files[i]);
        if is_met(files, i + 1, name) {
            return Some(name);
        }
    }
    None
}

fn is_output(target: Target<'_>) -> bool
    ensures { result ≡ is_the_output target.entry }
{
    matches!(target, Target::Output)
}

fn is_folder(target: Target<'_>) -> bool
    ensures { result ≡ is_a_folder target.entry }
{
    matches!(target, Target::Folder(_))
}

// Whether what is made of files is written, and not told.
fn writes(task: &Rewriting<'_>) -> bool
    ensures { result ≡ is_writing task.now }
{
    !task.lists && !task.explains
}

fn has_no_files(task: &Rewriting<'_>) -> bool
    ensures { result ≡ lacks_files task.now }
{
    task.files.is_empty() && !is_output(task.target)
}

fn has_one_output(task: &Rewriting<'_>) -> bool
    ensures { result ≡ shares_output task.now }
{
    writes(task) && (1 < task.files.len() && is_output(task.target))
}

fn has_one_map(task: &Rewriting<'_>) -> bool
    ensures { result ≡ shares_map task.now }
{
    1 < task.files.len() && task.map.is_some()
}

fn is_any(files: &[&str], path: &str) -> bool
    ensures { result ≡ list_any (λ f. bytes_eq f.now path.now) files.now }
{
    files.iter().any(|file| *file == path)
}

fn has_map_over_file(task: &Rewriting<'_>) -> bool
    ensures { result ≡ maps_over task.now }
{
    match task.map {
        Some(path) => is_any(task.files.as_slice(), path),
        None => false,
    }
}

fn goes_into_folder(task: &Rewriting<'_>) -> bool
    ensures { result ≡ fills_folder task.now }
{
    writes(task) && is_folder(task.target)
}

/// What of a task over files can't be done, whatever they hold: answers have no place, or several would go to one, or a map would go over
/// what is read. None where all can.
///
/// Where it is none, no two answers that are written go to standard output, into one map, or under one name into a folder.
pub fn misuse_of<'a>(task: &Rewriting<'a>) -> Option<Misuse<'a>>
    ensures { IsMisuseTold task.now result }
{
    if has_no_files(task) {
        return Some(Misuse::NoFiles);
    }
    if has_one_output(task) {
        return Some(Misuse::OneOutput);
    }
    if has_one_map(task) {
        return Some(Misuse::OneMap);
    }
    if has_map_over_file(task) {
        return Some(Misuse::MapOverFile);
    }
    if !goes_into_folder(task) {
        return None;
    }
    match shared_name(task.files.as_slice()) {
        Some(name) => Some(Misuse::OneName(name)),
        None => None,
    }
}
