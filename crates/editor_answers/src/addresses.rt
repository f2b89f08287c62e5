//! Addresses of files, and the paths that they stand for.
ghost use Rattle.std.specs.Prelude.{◌≡◌, IfOk, MatchOption, option_copied, option_map, string_bytes};
ghost use Rattle.std.specs.Str.{IsUtf8};
ghost use Rattle.percent_encoding.specs.Percent.{percent_decode};
ghost use Rattle.editor_answers.specs.Links.{address, IsEncodedPath, IsFolderOf, IsPathOfFolder};

use percent_encoding::{AsciiSet, NON_ALPHANUMERIC, ascii_set, percent_decode, percent_encode};
use std::alloc::{AllocError, Global};

/// What the address of a file begins with.
const SCHEME: &str = "file://";

/// The characters of a path that its address has escaped.
const ESCAPED: AsciiSet = ascii_set!(
    NON_ALPHANUMERIC
        .remove(b'/')
        .remove(b'-')
        .remove(b'.')
        .remove(b'_')
        .remove(b'~')
);

/// Returns the address of the folder of the document with an address.
pub(crate) fn folder_of(uri: &str) -> &str
    ensures { IsFolderOf uri.now result.now }
{
    match uri.rsplit_once('/') {
        Some((folder, _)) => folder,
        None => "",
    }
}

/// Returns the address of the file at a path that is seen from the folder with an address.
pub(crate) fn address(alloc: Global, folder: &str, path: &str) -> Result<String, AllocError>
    ensures { IfOk result (λ made. string_bytes made ≡ address folder.now path.now) }
{
    let mut address = String::new(alloc);
    if path.starts_with('/') {
        address.push_str(SCHEME)?;
    } else {
        address.push_str(folder)?;
        address.push_str("/")?;
    }
    percent_encode(path.as_bytes(), ESCAPED).append_to(&mut address)?;
    Ok(address)
}

/// Returns the path that the address of a folder stands for, without a slash at its end, if it is that
/// of a folder with files.
#[tactic(auto, using(crate::proofs::Folders::no_path, crate::proofs::Folders::path_if))]
pub(crate) fn folder_path(alloc: Global, folder: &str) -> Result<Option<String>, AllocError>
    ensures { IfOk result (λ made. IsPathOfFolder folder.now (option_map string_bytes made)) }
{
    match encoded_path(folder) {
        Some(encoded) => decoded(alloc, encoded),
        None => Ok(None),
    }
}

/// Returns the path that the address of a folder has, encoded, if it is that of a folder with files.
fn encoded_path(folder: &str) -> Option<&str>
    ensures { IsEncodedPath folder.now (option_copied result) }
{
    let encoded = folder.strip_prefix(SCHEME)?;
    match encoded.as_bytes() {
        [] | [b'/', ..] => Some(encoded),
        [_, ..] => None,
    }
}

/// Returns a text that is percent-encoded, decoded, if that is UTF-8.
fn decoded(alloc: Global, encoded: &str) -> Result<Option<String>, AllocError>
    ensures { IfOk result (λ made. MatchOption made (IsUtf8 (percent_decode encoded.now) → ⊥)
        (λ path. string_bytes path ≡ percent_decode encoded.now)) }
{
    let mut path = Vec::new(alloc);
    percent_decode(encoded.as_bytes()).append_to(&mut path)?;
    match String::from_utf8(path) {
        Ok(path) => Ok(Some(path)),
        Err(_) => Ok(None),
    }
}

/// Returns a text, if there is one.
pub(crate) fn text_of(text: &Option<String>) -> Option<&str>
    ensures { option_copied result ≡ option_map string_bytes text.now }
{
    match text {
        Some(text) => Some(text.as_str()),
        None => None,
    }
}
