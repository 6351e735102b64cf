//! The numbers by which servers, file systems, epochs, moves and eras are named.
ghost use Rattle.std.specs.Prelude.{◌≡◌, ◌<◌, ◌↔◌, ℕ, IsSome, IfSome};

use std::marker::Model;

/// A file system of a script, from 0 to 63.
#[derive(Clone, Copy, Debug, PartialEq, Eq)]
pub struct FsNum {
    number: u32,
}

impl Model for FsNum {
    ghost Value = { ℕ };

    ghost view = { λ x. x.number };

    ghost invariant = { λ x. x.number < 64 };

    ghost inverse = { λ n. record { number = n } };
}

impl FsNum {
    /// The file system of that number. `None` exactly where the number is past 63.
    pub fn new(n: u32) -> Option<FsNum>
        ensures value { IfSome result (λ x. x ≡ n) }
        ensures valid { IsSome result ↔ (n < 64) }
    {
        if n < 64 {
            Some(FsNum { number: n })
        } else {
            None
        }
    }

    /// Its number, from 0 to 63.
    pub fn number(self) -> u32
        ensures value { result ≡ self }
        ensures range { result < 64 }
    {
        self.number
    }
}

/// A server of a script, from 0 to 15.
#[derive(Clone, Copy, Debug, PartialEq, Eq)]
pub struct ServerNum {
    number: u32,
}

impl Model for ServerNum {
    ghost Value = { ℕ };

    ghost view = { λ x. x.number };

    ghost invariant = { λ x. x.number < 16 };

    ghost inverse = { λ n. record { number = n } };
}

impl ServerNum {
    /// The server of that number. `None` exactly where the number is past 15.
    pub fn new(n: u32) -> Option<ServerNum>
        ensures value { IfSome result (λ x. x ≡ n) }
        ensures valid { IsSome result ↔ (n < 16) }
    {
        if n < 16 {
            Some(ServerNum { number: n })
        } else {
            None
        }
    }

    /// Its number, from 0 to 15.
    pub fn number(self) -> u32
        ensures value { result ≡ self }
        ensures range { result < 16 }
    {
        self.number
    }
}

/// How many servers in turn have served a file system: each install of a move begins the next epoch.
#[derive(Clone, Copy, Debug, PartialEq, Eq)]
pub struct Epoch {
    number: u64,
}

impl Model for Epoch {
    ghost Value = { ℕ };

    ghost view = { λ x. x.number };

    ghost inverse = { λ n. record { number = n } };
}

impl Epoch {
    /// That number, of any value.
    pub fn new(n: u64) -> Epoch
        ensures { result ≡ n }
    {
        Epoch { number: n }
    }

    /// Its number.
    pub fn number(self) -> u64
        ensures { result ≡ self }
    {
        self.number
    }
}

/// The number of a move of a file system: each begin gives the next one.
#[derive(Clone, Copy, Debug, PartialEq, Eq, PartialOrd, Ord)]
pub struct MoveNum {
    number: u64,
}

impl Model for MoveNum {
    ghost Value = { ℕ };

    ghost view = { λ x. x.number };

    ghost inverse = { λ n. record { number = n } };
}

impl MoveNum {
    /// That number, of any value.
    pub fn new(n: u64) -> MoveNum
        ensures { result ≡ n }
    {
        MoveNum { number: n }
    }

    /// Its number.
    pub fn number(self) -> u64
        ensures { result ≡ self }
    {
        self.number
    }
}

/// The era of a client record at a server, which orders its leases there.
#[derive(Clone, Copy, Debug, PartialEq, Eq, PartialOrd, Ord)]
pub struct Era {
    number: u64,
}

impl Model for Era {
    ghost Value = { ℕ };

    ghost view = { λ x. x.number };

    ghost inverse = { λ n. record { number = n } };
}

impl Era {
    /// That number, of any value.
    pub fn new(n: u64) -> Era
        ensures { result ≡ n }
    {
        Era { number: n }
    }

    /// Its number.
    pub fn number(self) -> u64
        ensures { result ≡ self }
    {
        self.number
    }
}
