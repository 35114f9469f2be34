//! Paths of package files and of their folders.
ghost use Rattle.std.specs.Prelude.{◌≡◌, ◌≤◌, ◌<◌, ◌∷◌, [], List, ℕ, length, IfOk};
ghost use Rattle.std.specs.List.{list_any};
ghost use Rattle.cabal_stanzas.specs.Folder.{without_front, without_end, trimmed, is_glob_char, climbs, is_address, is_foreign, is_here, is_refused_item, behind_slash, package_file, folder_at, folder_of, folders_of};

use bp_base::Path;
use cabal_text::fields::next_item;
use sqlite_items::Items;
use std::alloc::{AllocError, Global};

/// Paths in order.
pub type Paths = Items<Path>;

#[tactic(auto, unfolding(crate::specs::Folder::without_front))]
fn without_front(item: &[u8]) -> &[u8]
    ensures { result.now ≡ without_front item.now }
{
    if item.starts_with(b"./") {
        &item[2..]
    } else {
        item
    }
}

#[tactic(auto, unfolding(crate::specs::Folder::without_end))]
fn without_end(item: &[u8]) -> &[u8]
    ensures { result.now ≡ without_end item.now }
{
    if item.ends_with(b"/") {
        &item[..item.len() - 1]
    } else {
        item
    }
}

/// The item without a leading `./` and without a trailing `/`.
pub fn trimmed(item: &[u8]) -> &[u8]
    ensures { result.now ≡ trimmed item.now }
{
    without_end(without_front(item))
}

#[tactic(auto, unfolding(crate::specs::Folder::is_glob_char))]
fn is_glob_char(b: u8) -> bool
    ensures { result ≡ is_glob_char b }
{
    matches!(b, b'*' | b'?' | b'[' | b']' | b'{' | b'}')
}

/// Whether some part between slashes is `..`.
#[tactic(auto, unfolding(crate::specs::Folder::climbs))]
fn climbs(item: &[u8]) -> bool
    ensures { result ≡ climbs item.now }
{
    item.split(|b| *b == b'/')
        .any(|part| part == b"..".as_slice())
}

/// Whether `://` stands in the item.
fn is_address(item: &[u8]) -> bool
    ensures { result ≡ is_address item.now }
{
    let mut rest = item;
    while let [_, after @ ..] = rest {
        if rest.starts_with(b"://") {
            return true;
        }
        rest = after;
    }
    false
}

fn is_glob(item: &[u8]) -> bool
    ensures { result ≡ list_any is_glob_char item.now }
{
    item.iter().any(|b| is_glob_char(*b))
}

/// Whether the item is a glob or an address, or leaves a folder.
#[tactic(auto, unfolding(crate::specs::Folder::is_foreign))]
fn is_foreign(item: &[u8]) -> bool
    ensures { result ≡ is_foreign item.now }
{
    is_glob(item) || climbs(item) || is_address(item)
}

/// Whether the path is that of the folder itself.
#[tactic(auto, unfolding(crate::specs::Folder::is_here))]
fn is_here(path: &[u8]) -> bool
    ensures { result ≡ is_here path.now }
{
    path.is_empty() || path == b".".as_slice()
}

/// Whether the item names no package file.
#[tactic(auto, unfolding(crate::specs::Folder::is_refused_item))]
pub fn is_refused_item(item: &[u8]) -> bool
    ensures { result ≡ is_refused_item item.now }
{
    is_foreign(item) || without_front(item).starts_with(b"/") || is_here(trimmed(item))
}

/// What stands behind the last slash.
pub fn behind_slash(path: &[u8]) -> &[u8]
    ensures { result.now ≡ behind_slash path.now path.now }
{
    let mut behind = path;
    let mut rest = path;
    while let [first, after @ ..] = rest {
        if *first == b'/' {
            behind = after;
        }
        rest = after;
    }
    behind
}

/// The package file at a path, which may be that of its folder.
#[tactic(auto, unfolding(crate::specs::Folder::package_file))]
pub fn package_file(alloc: Global, path: &[u8]) -> Result<Path, AllocError>
    ensures { IfOk result (λ file. file ≡ package_file path.now) }
{
    let mut file = path.to_vec(alloc)?;
    if !path.ends_with(b".cabal") {
        file.push(b'/')?;
        file.extend_from_slice(behind_slash(path))?;
        file.extend_from_slice(b".cabal")?;
    }
    Ok(Path::from_vec(file))
}

/// A folder of sources: `.` where nothing is left of it.
#[tactic(auto, unfolding(crate::specs::Folder::folder_at))]
fn folder_at(alloc: Global, path: &[u8]) -> Result<Path, AllocError>
    ensures { IfOk result (λ folder. folder ≡ folder_at path.now) }
{
    if path.is_empty() {
        Path::from_bytes(alloc, b".")
    } else {
        Path::from_bytes(alloc, path)
    }
}

/// A folder of sources, which may not lead up.
fn folder_of(alloc: Global, item: &[u8]) -> Result<Option<Path>, AllocError>
    ensures { IfOk result (λ folder. folder ≡ folder_of item.now) }
{
    if climbs(item) {
        return Ok(None);
    }
    Ok(Some(folder_at(alloc, trimmed(item))?))
}

/// The folders of a list.
pub fn folders_of(alloc: Global, value: &[u8]) -> Result<Option<Paths>, AllocError>
    ensures { IfOk result (λ folders. folders ≡ folders_of value.now) }
{
    let mut folders = Items::new(alloc);
    let mut rest = value;
    while let Some((item, after)) = next_item(rest) {
        let Some(folder) = folder_of(alloc, item)? else {
            return Ok(None);
        };
        folders.push(folder)?;
        rest = after;
    }
    Ok(Some(folders))
}

/// The same paths once more.
pub fn copied_paths(alloc: Global, paths: &Paths) -> Result<Paths, AllocError>
    ensures { IfOk result (λ r. r ≡ paths.now) }
{
    let mut all = Items::new(alloc);
    for each in paths.as_slice() {
        all.push(each.copied(alloc)?)?;
    }
    Ok(all)
}
