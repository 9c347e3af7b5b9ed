//! The files of a task whose words name none, or only a list: those that the project file names.

ghost use Rattle.std.specs.Prelude.{◌≡◌, ◌≢◌, ◌≤◌, [], IfOk, MatchResult};

use crate::inputs::{Unread, file_text, path_of, unread_folder};
use crate::run::{cannot_read, wrong_words};
use app_words::unasked::{Unasked, wrong, wrong_as};
use report_queries::answers::no_memory;
use std::alloc::{AllocError, Global};
use std::fs;
use std::io::Write;
use text_documents::projects::{PROJECT_FILE, files_in, lists_in};

// How many folders above one a project file is looked for in.
const FOLDERS_ABOVE: usize = 64;

/// A project file.
pub struct Project {
    /// What leads to its folder from where files are looked for: `../` for each folder that it is above.
    pub above: String,
    /// Its text.
    pub text: String,
}

impl Drop for Project {
    fn drop(self) {
        let Project { above: _, text: _ } = self;
    }
}

/// Finds the files of a task, of which these are named, in a folder: those of the project file there or above it, where none is
/// named or the only one is no file but a list; else these. Where there are none, `err` says why, and that is answered by the
/// status: 2 where no file is named or no list has this name, 1 or 4 where the project file can't be read, 3 where memory is
/// refused.
pub fn find_files<R: std::rt::Files + AllocGlobal, E: Write>(
    rt: &R,
    folder: &str,
    files: &mut Vec<String>,
    err: &mut E,
) -> Result<(), u8>
    ensures { MatchResult result (λ _. files.new.items ≢ []) (λ status. (1 ≤ status) × (status ≤ 4)) }
{
    let list = match files.as_slice() {
        [] => "",
        [name] if is_list(rt, folder, name) => name.as_str(),
        _ => return Ok(()),
    };
    let found = match project_of(rt, folder) {
        Ok(found) => found,
        Err(why) => return Err(cannot_read(rt.alloc(), why, err)),
    };
    let listed = match &found {
        Some(project) => project.files(rt.alloc(), list),
        None if list.is_empty() => Err(wrong_as(
            rt.alloc(),
            "no file, and no isle.files in this folder or above it",
        )),
        None => return Ok(()),
    };
    match listed {
        Ok(names) => {
            *files = names;
            Ok(())
        }
        Err(Unasked::Words(why)) => Err(wrong_words(rt.alloc(), &why, "isle --help", err)),
        Err(Unasked::Memory) => Err(no_memory(err)),
    }
}

// Whether a word may be the name of a list: it is no path, and there is no such file.
fn is_list<R: std::rt::Files + AllocGlobal>(rt: &R, folder: &str, word: &str) -> bool {
    if word == "-" || word.contains('.') || word.contains('/') {
        return false;
    }
    match path_of(rt.alloc(), folder, word) {
        Ok(path) => match fs::metadata(rt, path.as_str()) {
            Ok(found) => found.is_dir(),
            Err(_) => true,
        },
        Err(AllocError) => false,
    }
}

// The project file in a folder, or else in the nearest one above it that has one.
fn project_of<R: std::rt::Files + AllocGlobal>(
    rt: &R,
    folder: &str,
) -> Result<Option<Project>, Unread> {
    let alloc = rt.alloc();
    if !folder.is_empty() {
        if let Some(why) = unread_folder(rt, folder) {
            return Err(why);
        }
    }
    let mut above = String::new(alloc);
    for _ in 0..FOLDERS_ABOVE {
        let name = format!(in alloc; "{above}{PROJECT_FILE}")?;
        let path = path_of(alloc, folder, &name)?;
        if !matches!(fs::exists(rt, path.as_str()), Ok(false)) {
            let text = file_text(rt, folder, &name)?;
            return Ok(Some(Project { above, text }));
        }
        above.push_str("../")?;
    }
    Ok(None)
}

impl Project {
    /// The files of the list of this name, or of none for the empty name: paths from where files are looked for.
    ///
    /// # Errors
    ///
    /// Where there is no such list or no file, or memory is refused.
    pub fn files(&self, alloc: Global, list: &str) -> Result<Vec<String>, Unasked>
        ensures { IfOk result (λ files. files.items ≢ []) }
    {
        let lists = lists_in(alloc, &self.text)?;
        if !list.is_empty() && !lists.iter().any(|name| *name == list) {
            let lists = lists_told(alloc, &lists)?;
            return Err(wrong(format!(in alloc;
                "no file and no list of isle.files is called '{list}': {lists}"
            )));
        }
        let mut files = Vec::new(alloc);
        for name in &files_in(alloc, &self.text, list)? {
            files.push(self.path(alloc, name)?)?;
        }
        if files.is_empty() {
            let lists = lists_told(alloc, &lists)?;
            return Err(wrong(format!(in alloc; "no file, and isle.files names none: {lists}")));
        }
        Ok(files)
    }

    // The path of a file from where files are looked for.
    fn path(&self, alloc: Global, name: &str) -> Result<String, AllocError> {
        if name.starts_with('/') {
            return String::from_str(alloc, name);
        }
        let above = self.above.as_str();
        format!(in alloc; "{above}{name}")
    }
}

// Which lists there are.
fn lists_told(alloc: Global, lists: &[&str]) -> Result<String, AllocError> {
    if lists.is_empty() {
        return String::from_str(alloc, "it has no lists");
    }
    let names = lists.join(alloc, ", ")?;
    format!(in alloc; "its lists are {names}")
}
