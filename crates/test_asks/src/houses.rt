//! What a file server is set up with.
use afp_base::{Bytes, Moment};
use afp_core::{Core, CoreFault};
use afp_serial::{House, HouseFault, User};
use record_keeper::MemoryKeeper;
use std::alloc::Global;
use test_lines::cases::{CaseFault, bytes_of, moment_of, owned, put_word, text_of, word_of};

/// The server's signature.
const SIGNATURE: [u8; 16] = [0, 1, 2, 3, 4, 5, 6, 7, 8, 9, 10, 11, 12, 13, 14, 15];

/// `ID:NAME`.
fn user_of(alloc: Global, word: &str) -> Result<User, CaseFault> {
    let Some((id, name)) = word.split_once(':') else {
        return Err(CaseFault::Word);
    };
    Ok(User {
        id: id.parse::<u32>()?,
        name: owned(alloc, name)?,
        password: *b"secret\0\0",
    })
}

fn users_of(alloc: Global, word: &str) -> Result<Vec<User>, CaseFault> {
    let mut users = Vec::new(alloc);
    for part in word.split(',') {
        if part != "none" {
            users.push(user_of(alloc, part)?)?;
        }
    }
    Ok(users)
}

fn volumes_of(alloc: Global, word: &str) -> Result<Vec<Bytes>, CaseFault> {
    let mut volumes = Vec::new(alloc);
    for part in word.split(',') {
        if part != "none" {
            volumes.push(owned(alloc, part)?)?;
        }
    }
    Ok(volumes)
}

fn utf8(bytes: &[u8]) -> Result<&str, CaseFault> {
    match str::from_utf8(bytes) {
        Ok(text) => Ok(text),
        Err(_) => Err(CaseFault::Word),
    }
}

/// A house of these parts, or its fault.
fn house_of(
    alloc: Global,
    server: &[u8],
    message: &[u8],
    users: &str,
    volumes: &str,
) -> Result<Result<House, HouseFault>, CaseFault> {
    let server = utf8(server)?;
    let message = utf8(message)?;
    let users = users_of(alloc, users)?;
    let volumes = volumes_of(alloc, volumes)?;
    Ok(House::new(alloc, server, SIGNATURE, users, volumes, message, [7; 32]))
}

fn put_fault(text: &mut String, fault: HouseFault) -> Result<(), CaseFault> {
    match fault {
        HouseFault::Server => text.push_str("server")?,
        HouseFault::Users => text.push_str("users")?,
        HouseFault::User { index } => write!(text, "user {index}")?,
        HouseFault::Volumes => text.push_str("volumes")?,
        HouseFault::Volume { index } => write!(text, "volume {index}")?,
        HouseFault::Message => text.push_str("message")?,
        HouseFault::Memory => return Err(CaseFault::Memory),
    }
    Ok(())
}

fn found(alloc: Global, house: &Result<House, HouseFault>) -> Result<String, CaseFault> {
    let mut text = String::new(alloc);
    match house {
        Ok(_) => text.push_str("good")?,
        Err(fault) => put_fault(&mut text, *fault)?,
    }
    Ok(text)
}

fn tried(
    alloc: Global,
    server: &[u8],
    message: &[u8],
    users: &str,
    volumes: &str,
) -> Result<String, CaseFault> {
    let house = house_of(alloc, server, message, users, volumes)?;
    found(alloc, &house)
}

/// `house SERVER USERS VOLUMES MESSAGE`, with users `ID:NAME,..` and volumes `NAME,..`, and `none` for no user or volume: its
/// first fault, or `good`.
pub fn house(alloc: Global, words: &[&str]) -> Result<String, CaseFault> {
    let [server, users, volumes, message] = words else {
        return Err(CaseFault::Word);
    };
    let server = bytes_of(alloc, server)?;
    let message = bytes_of(alloc, message)?;
    tried(alloc, server.as_slice(), message.as_slice(), users, volumes)
}

fn put_users(alloc: Global, text: &mut String, users: &[User]) -> Result<(), CaseFault> {
    for user in users {
        let id = user.id;
        write!(text, "user {id} ")?;
        put_word(alloc, text, user.name.as_slice())?;
        text.push(' ')?;
        put_word(alloc, text, &user.password)?;
        text.push(' ')?;
    }
    Ok(())
}

/// What a house tells of its parts.
fn parts_of(alloc: Global, house: &House) -> Result<String, CaseFault> {
    let mut text = String::new(alloc);
    put_users(alloc, &mut text, house.users())?;
    for volume in house.volumes() {
        text.push_str("volume ")?;
        put_word(alloc, &mut text, volume.as_slice())?;
        text.push(' ')?;
    }
    text.push_str("message ")?;
    put_word(alloc, &mut text, house.message())?;
    text.push_str(" key ")?;
    put_word(alloc, &mut text, &house.token_key())?;
    Ok(text)
}

fn copied(alloc: Global, house: &House) -> Result<String, CaseFault> {
    let first = parts_of(alloc, house)?;
    let copy = house.copy(alloc)?;
    let second = parts_of(alloc, &copy)?;
    if first.as_str() != second.as_str() {
        return text_of(alloc, "another house");
    }
    Ok(second)
}

/// `house_copied SERVER USERS VOLUMES MESSAGE`: what the house and its copy tell of their parts.
pub fn house_copied(alloc: Global, words: &[&str]) -> Result<String, CaseFault> {
    let [server, users, volumes, message] = words else {
        return Err(CaseFault::Word);
    };
    let server = bytes_of(alloc, server)?;
    let message = bytes_of(alloc, message)?;
    match house_of(alloc, server.as_slice(), message.as_slice(), users, volumes)? {
        Ok(house) => copied(alloc, &house),
        Err(_) => Err(CaseFault::Word),
    }
}

/// A server of this name, with this message, these users and these volumes.
pub fn server_with(
    alloc: Global,
    server: &[u8],
    message: &[u8],
    users: &str,
    volumes: &str,
) -> Result<House, CaseFault> {
    match house_of(alloc, server, message, users, volumes)? {
        Ok(house) => Ok(house),
        Err(_) => Err(CaseFault::Word),
    }
}

/// A server of this name, without message or users, with these volumes.
pub fn server_of(alloc: Global, server: &[u8], volumes: &str) -> Result<House, CaseFault> {
    server_with(alloc, server, b"", "none", volumes)
}

/// `status SERVER`: the status block of a server of that name.
pub fn status(alloc: Global, words: &[&str]) -> Result<String, CaseFault> {
    let [server] = words else {
        return Err(CaseFault::Word);
    };
    let house = server_of(alloc, bytes_of(alloc, server)?.as_slice(), "5368617265")?;
    word_of(alloc, house.status(alloc)?.as_slice())
}

/// So many keepers in memory that hold nothing and never fail.
pub fn keepers_of(alloc: Global, count: usize) -> Result<Vec<MemoryKeeper>, CaseFault> {
    let mut keepers = Vec::new(alloc);
    for _ in 0..count {
        keepers.push(MemoryKeeper::new(alloc, Vec::new(alloc)))?;
    }
    Ok(keepers)
}

fn core_of(
    house: &House,
    alloc: Global,
    keepers: Vec<MemoryKeeper>,
    now: Moment,
) -> Result<&'static str, CaseFault> {
    match Core::new(alloc, house, keepers, now) {
        Ok(_) => Ok("served"),
        Err(CoreFault::Count) => Ok("other count"),
        Err(CoreFault::Load { .. }) => Ok("not loaded"),
        Err(CoreFault::Memory) => Err(CaseFault::Memory),
    }
}

/// `volumes NAME,.. COUNT`: whether a server has them over so many keepers.
pub fn volumes(alloc: Global, words: &[&str]) -> Result<String, CaseFault> {
    let [volumes, count] = words else {
        return Err(CaseFault::Word);
    };
    let house = server_of(alloc, b"Mac", volumes)?;
    let keepers = keepers_of(alloc, count.parse::<usize>()?)?;
    let now = moment_of("100")?;
    text_of(alloc, core_of(&house, alloc, keepers, now)?)
}
