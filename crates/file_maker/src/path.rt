//! The paths of what is made.

ghost use Rattle.std.specs.Prelude.{◌≡◌, ◌<◌, ◌⊎◌, length, IfNone, IfSome};
ghost use Rattle.std.specs.Str.{IsUtf8};
ghost use Rattle.file_maker.specs.Made.{path_in};

use track_shelf::Path;

/// A folder's path as one text. None where it is longer than 4096 bytes, or no text.
pub fn folder_path(folder: &[u8]) -> Option<Path>
    ensures whole { IfSome result (λ path. path.bytes ≡ folder.now) }
    ensures none { IfNone result ((4096 < length folder.now) ⊎ (¬ (IsUtf8 folder.now))) }
{
    let Ok(text) = str::from_utf8(folder) else {
        return None;
    };
    let mut path = Path::new();
    match path.try_push_str(text) {
        Ok(()) => Some(path),
        Err(_) => None,
    }
}

/// The path of a file of this name in a folder, as one text. None where it is longer than 4096 bytes, or the folder's
/// is no text.
pub fn file_path(folder: &[u8], name: &str) -> Option<Path>
    ensures whole { IfSome result (λ path. path.bytes ≡ path_in folder.now name.now) }
    ensures none { IfNone result ((4096 < length (path_in folder.now name.now)) ⊎ (¬ (IsUtf8 folder.now))) }
{
    let mut path = match folder_path(folder) {
        Some(path) => path,
        None => return None,
    };
    if path.try_push_str("/").is_err() {
        return None;
    }
    match path.try_push_str(name) {
        Ok(()) => Some(path),
        Err(_) => None,
    }
}
