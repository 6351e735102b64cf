//! The names that a head has given, and the numbers that stand for them.
ghost use Rattle.std.specs.Prelude.{◌≡◌, ◌<◌, IfOk};
ghost use Rattle.nm_script.specs.Reading as spec;

use crate::words::{is_name, is_word};
use crate::{Head, Why};
use nm_types::{FsNum, ServerNum};

fn is_server(head: &Head, name: &[u8]) -> bool
    ensures { result ≡ spec.is_server head.now name.now }
{
    let rows = head.servers.items();
    rows.iter().any(|row| is_word(row.name.items(), name))
}

fn is_file_system(head: &Head, name: &[u8]) -> bool
    ensures { result ≡ spec.is_file_system head.now name.now }
{
    let rows = head.file_systems.items();
    rows.iter().any(|row| is_word(row.name.items(), name))
}

fn is_client(head: &Head, name: &[u8]) -> bool
    ensures { result ≡ spec.is_client head.now name.now }
{
    let rows = head.clients.items();
    rows.iter().any(|row| is_word(row.name.items(), name))
}

/// Whether a word has the form of a name, and names nothing yet.
#[tactic(auto, unfolding(crate::specs::Reading::is_new_name))]
pub(crate) fn is_new_name(head: &Head, name: &[u8]) -> bool
    ensures { result ≡ spec.is_new_name head.now name.now }
{
    if !is_name(name) {
        return false;
    }
    !(is_server(head, name) || is_file_system(head, name) || is_client(head, name))
}

/// A place below a limit. A name without a place is unknown.
#[tactic(auto, unfolding(crate::specs::Reading::place_below))]
fn place_below(limit: u32, place: Option<usize>) -> Result<u32, Why>
    ensures place { result ≡ spec.place_below limit place }
    ensures below { IfOk result (λ n. n < limit) }
{
    match place {
        None => Err(Why::Name),
        Some(place) => {
            if place >= limit as usize {
                return Err(Why::Name);
            }
            Ok(place as u32)
        }
    }
}

fn server_place(head: &Head, name: &[u8]) -> Option<usize>
    ensures { result ≡ spec.server_place head.now name.now }
{
    let rows = head.servers.items();
    rows.iter().position(|row| is_word(row.name.items(), name))
}

fn file_system_place(head: &Head, name: &[u8]) -> Option<usize>
    ensures { result ≡ spec.file_system_place head.now name.now }
{
    let rows = head.file_systems.items();
    rows.iter().position(|row| is_word(row.name.items(), name))
}

fn client_place(head: &Head, name: &[u8]) -> Option<usize>
    ensures { result ≡ spec.client_place head.now name.now }
{
    let rows = head.clients.items();
    rows.iter().position(|row| is_word(row.name.items(), name))
}

/// The number of the server of that name.
pub(crate) fn server_number(head: &Head, name: &[u8]) -> Result<ServerNum, Why>
    ensures { result ≡ spec.server_number head.now name.now }
{
    let place = place_below(16, server_place(head, name))?;
    match ServerNum::new(place) {
        Some(number) => Ok(number),
        None => Err(Why::Name),
    }
}

/// The number of the file system of that name.
pub(crate) fn file_system_number(head: &Head, name: &[u8]) -> Result<FsNum, Why>
    ensures { result ≡ spec.file_system_number head.now name.now }
{
    let place = place_below(64, file_system_place(head, name))?;
    match FsNum::new(place) {
        Some(number) => Ok(number),
        None => Err(Why::Name),
    }
}

/// The number of the client of that name.
pub(crate) fn client_number(head: &Head, name: &[u8]) -> Result<u32, Why>
    ensures { result ≡ spec.client_number head.now name.now }
{
    place_below(64, client_place(head, name))
}
