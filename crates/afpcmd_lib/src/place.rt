//! Where a server is, and a place on it.
use afp_base::OutOfMemory;
use percent_encoding::percent_decode;
use std::alloc::Global;

/// Where a server is, as whom, and a path on it: a volume, and names in it.
#[derive(Drop)]
pub struct Place {
    pub user: Option<String>,
    pub address: String,
    pub path: String,
}

/// A text without its `%XX`; none where it is not UTF-8.
fn decoded(alloc: Global, text: &str) -> Result<Option<String>, OutOfMemory> {
    let mut out = Vec::new(alloc);
    percent_decode(text.as_bytes()).append_to(&mut out)?;
    match str::from_utf8(out.as_slice()) {
        Ok(text) => Ok(Some(String::from_str(alloc, text)?)),
        Err(_) => Ok(None),
    }
}

/// As whom, where a word says so, and the rest.
fn user_and_address(word: &str) -> (Option<&str>, &str) {
    match word.rsplit_once('@') {
        Some((user, address)) => (Some(user), address),
        None => (None, word),
    }
}

/// The host with its port, and the path behind it.
fn address_and_path(word: &str) -> (&str, &str) {
    match word.split_once('/') {
        Some((address, path)) => (address, path),
        None => (word, ""),
    }
}

/// What an `afp://` word says behind these letters, or a HOST; none where it says no place.
fn place_of(alloc: Global, word: &str) -> Result<Option<Place>, OutOfMemory> {
    let (authority, path) = address_and_path(word);
    let (user, address) = user_and_address(authority);
    if address.is_empty() {
        return Ok(None);
    }
    let user = match user {
        Some(user) => match decoded(alloc, user)? {
            Some(user) => Some(user),
            None => return Ok(None),
        },
        None => None,
    };
    let Some(path) = decoded(alloc, path)? else {
        return Ok(None);
    };
    Ok(Some(Place {
        user,
        address: String::from_str(alloc, address)?,
        path,
    }))
}

/// Whether a word is an `afp://` one.
pub(crate) fn is_url(word: &str) -> bool {
    word.starts_with("afp://")
}

/// The place that a word says: `[afp://][USER@]HOST[:PORT][/VOLUME[/PATH]]`.
pub(crate) fn read_place(alloc: Global, word: &str) -> Result<Option<Place>, OutOfMemory> {
    match word.strip_prefix("afp://") {
        Some(rest) => place_of(alloc, rest),
        None => place_of(alloc, word),
    }
}
