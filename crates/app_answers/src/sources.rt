//! The lists of files that are one program each, and their order.

use crate::documents::{Documents, OpenDocument};
use app_messages::uris::uri_of;
use cranelift_isle::syntax::Files;
use std::alloc::{AllocError, Global};
use std::convert::AsStr;
use std::fs;
use text_documents::projects::{PROJECT_FILE, files_in, lists_in};

/// Where the files are that the client works on, and what it says of their order.
pub struct Workspace {
    /// The path of the folder, or the empty text.
    pub root: String,
    /// The files that the client names, in order.
    pub named: Vec<String>,
}

impl Drop for Workspace {
    fn drop(self) {
        let Workspace { root: _, named: _ } = self;
    }
}

/// A list of files, in order: one program.
pub struct Sources {
    /// The list's name in the project file, or the empty text.
    pub name: String,
    /// The path of its folder, or the empty text.
    pub root: String,
    /// The names of the files, below the folder, and their texts.
    pub files: Files,
    /// Their URIs.
    pub uris: Vec<String>,
    /// What they are known by: their paths.
    pub paths: Vec<String>,
}

impl Drop for Sources {
    fn drop(self) {
        let Sources {
            name: _,
            root: _,
            files: _,
            uris: _,
            paths: _,
        } = self;
    }
}

/// The lists of files of some folders: of each folder those lists of its project file of which a file is open, or else the first
/// one, or else the files that the client names. A document that is open and in no list stands behind the files of a list of the
/// folder that it is in, or else of the first one. The text of a file that isn't open is read. One that can't be read is left out.
pub fn lists_of<R: std::rt::Files + AllocGlobal>(
    rt: &R,
    workspaces: &[Workspace],
    documents: &Documents,
) -> Result<Vec<Sources>, AllocError> {
    let mut lists = Vec::new(rt.alloc());
    for workspace in workspaces {
        add_lists(rt, &mut lists, workspace, documents)?;
    }
    for open in &documents.open {
        if !lists.iter().any(|sources: &Sources| sources.number_of(&open.name).is_some()) {
            if let Some(sources) = list_for(&mut lists, &open.name) {
                add_document(rt.alloc(), sources, open)?;
            }
        }
    }
    Ok(lists)
}

// The list that an open document is added to.
fn list_for<'a>(lists: &'a mut [Sources], path: &str) -> Option<&'a mut Sources> {
    let last = lists
        .iter()
        .rev()
        .position(|sources| is_below(sources, path));
    let number = match last {
        Some(behind) => lists.len().saturating_sub(behind).saturating_sub(1),
        None => 0,
    };
    lists.get_mut(number)
}

// Whether a path is in the folder of a list.
fn is_below(sources: &Sources, path: &str) -> bool {
    name_below(&sources.root, path).len() < path.len()
}

// Adds the lists of a folder.
fn add_lists<R: std::rt::Files + AllocGlobal>(
    rt: &R,
    lists: &mut Vec<Sources>,
    workspace: &Workspace,
    documents: &Documents,
) -> Result<(), AllocError> {
    let alloc = rt.alloc();
    let Some(text) = text_at(rt, &in_folder(alloc, workspace, PROJECT_FILE)?)? else {
        let paths = paths_named(alloc, workspace, &workspace.named)?;
        return add_list(rt, lists, ("", workspace), documents, &paths);
    };
    let names = lists_in(alloc, &text)?;
    let count = lists.len();
    for name in &names {
        let paths = paths_named(alloc, workspace, &files_in(alloc, &text, name)?)?;
        if paths.iter().any(|path| documents.named(path).is_some()) {
            add_list(rt, lists, (name, workspace), documents, &paths)?;
        }
    }
    if lists.len() > count {
        return Ok(());
    }
    let name = names.first().copied().unwrap_or("");
    let paths = paths_named(alloc, workspace, &files_in(alloc, &text, name)?)?;
    add_list(rt, lists, (name, workspace), documents, &paths)
}

// Adds the list of the files at some paths.
fn add_list<R: std::rt::Files + AllocGlobal>(
    rt: &R,
    lists: &mut Vec<Sources>,
    (name, workspace): (&str, &Workspace),
    documents: &Documents,
    paths: &[String],
) -> Result<(), AllocError> {
    let alloc = rt.alloc();
    let mut sources = Sources {
        name: String::from_str(alloc, name)?,
        root: workspace.root.clone()?,
        files: Files {
            names: Vec::new(alloc),
            texts: Vec::new(alloc),
        },
        uris: Vec::new(alloc),
        paths: Vec::new(alloc),
    };
    for path in paths {
        add_path(rt, &mut sources, documents, path)?;
    }
    lists.push(sources)?;
    Ok(())
}

// The paths of the files of these names.
fn paths_named<S: AsStr>(
    alloc: Global,
    workspace: &Workspace,
    names: &[S],
) -> Result<Vec<String>, AllocError> {
    let mut paths = Vec::new(alloc);
    for name in names {
        paths.push(in_folder(alloc, workspace, name.as_str())?)?;
    }
    Ok(paths)
}

// The path of a file of the workspace.
fn in_folder(alloc: Global, workspace: &Workspace, name: &str) -> Result<String, AllocError> {
    let name = name.strip_prefix("./").unwrap_or(name);
    if workspace.root.is_empty() || name.starts_with('/') {
        return String::from_str(alloc, name);
    }
    let root = workspace.root.as_str();
    format!(in alloc; "{root}/{name}")
}

fn add_path<R: std::rt::Files + AllocGlobal>(
    rt: &R,
    sources: &mut Sources,
    documents: &Documents,
    path: &str,
) -> Result<(), AllocError> {
    let alloc = rt.alloc();
    if let Some(open) = documents.named(path) {
        return add_document(alloc, sources, open);
    }
    match text_at(rt, path)? {
        Some(text) => add(alloc, sources, (uri_of(alloc, path)?, path), text),
        None => Ok(()),
    }
}

// Adds a document, if it isn't there.
fn add_document(
    alloc: Global,
    sources: &mut Sources,
    open: &OpenDocument,
) -> Result<(), AllocError> {
    let uri = open.uri.clone()?;
    let text = String::from_str(alloc, open.document.text())?;
    add(alloc, sources, (uri, open.name.as_str()), text)
}

// Adds a file, if it isn't there.
fn add(
    alloc: Global,
    sources: &mut Sources,
    (uri, path): (String, &str),
    text: String,
) -> Result<(), AllocError> {
    if sources.number_of(path).is_some() {
        return Ok(());
    }
    let name = String::from_str(alloc, name_below(&sources.root, path))?;
    let path = String::from_str(alloc, path)?;
    sources.files.names.push(name)?;
    sources.files.texts.push(text)?;
    sources.uris.push(uri)?;
    sources.paths.push(path)?;
    Ok(())
}

// The name of a file below a folder.
fn name_below<'a>(root: &str, path: &'a str) -> &'a str {
    if root.is_empty() {
        return path;
    }
    match path.strip_prefix(root) {
        Some(rest) => rest.strip_prefix("/").unwrap_or(path),
        None => path,
    }
}

// The text of the file at a path, or None where it can't be read, or isn't UTF-8.
fn text_at<R: std::rt::Files + AllocGlobal>(
    rt: &R,
    path: &str,
) -> Result<Option<String>, AllocError> {
    match fs::read(rt, path) {
        Ok(bytes) => Ok(String::from_utf8(bytes).ok()),
        Err(error) if error.kind() == std::io::ErrorKind::OutOfMemory => Err(AllocError),
        Err(_) => Ok(None),
    }
}

impl Sources {
    /// The text of a file by its number, or the empty text.
    pub fn text(&self, file: usize) -> &str {
        match self.files.texts.get(file) {
            Some(text) => text.as_str(),
            None => "",
        }
    }

    /// The number of the file at a path.
    pub fn number_of(&self, path: &str) -> Option<usize> {
        self.paths.iter().position(|other| other.as_str() == path)
    }
}
