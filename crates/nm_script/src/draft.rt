//! What the lines of a script say so far: its head in order, and then the lines that are run.
ghost use Rattle.std.specs.Prelude.{◌≡◌, map};
ghost use Rattle.nm_script.specs.Reading as spec;
ghost use Rattle.nm_script.specs.Reading.{Gives};

use crate::fault::LineFault;
use crate::names::{is_new_name, server_number};
use crate::order::{Kind, first_kind, may_follow};
use crate::run::run_line;
use crate::words::{has_empty_word, is_printable, is_word, number, says_something, words_of};
use crate::{ClientRow, FsRow, Head, Lines, Script, ServerRow, Why};
use nm_types::{Bytes, Items};
use std::alloc::Global;

/// How many bytes a line may have.
const LINE_LENGTH_LIMIT: usize = 4096;

/// How many servers a script may have.
const SERVER_LIMIT: usize = 16;

/// How many file systems a script may have.
const FILE_SYSTEM_LIMIT: usize = 64;

/// How many clients a script may have.
const CLIENT_LIMIT: usize = 64;

/// Whether a head has as many lines of that kind as there may be.
#[tactic(auto, unfolding(crate::specs::Reading::is_full))]
fn is_full(head: &Head, kind: Kind) -> bool
    ensures { result ≡ spec.is_full head.now kind }
{
    match kind {
        Kind::Server => head.servers.items().len() >= SERVER_LIMIT,
        Kind::FileSystem => head.file_systems.items().len() >= FILE_SYSTEM_LIMIT,
        Kind::Client => head.clients.items().len() >= CLIENT_LIMIT,
        Kind::Version | Kind::Lease | Kind::Run => false,
    }
}

/// What the lines so far say.
#[derive(Drop)]
pub(crate) struct Draft {
    /// What the last line was that said something.
    last: Option<Kind>,
    head: Head,
    lines: Lines,
}

impl Draft {
    /// Nothing yet.
    pub(crate) fn new(alloc: Global) -> Draft
        ensures { result ≡ spec.nothing_yet }
    {
        Draft {
            last: None,
            head: Head {
                lease: 0,
                servers: Items::new(alloc),
                file_systems: Items::new(alloc),
                clients: Items::new(alloc),
            },
            lines: Items::new(alloc),
        }
    }

    /// `nfsmove 1`.
    #[tactic(auto, unfolding(crate::specs::Reading::version_at))]
    fn version(mut self, words: &[&[u8]]) -> Result<Draft, LineFault>
        ensures { Gives result (spec.version_at self (map (λ word. word.now) words.now)) }
    {
        match words {
            [_, version] => {
                if !is_word(version, b"1") {
                    return Err(LineFault::Bad(Why::Word));
                }
                self.last = Some(Kind::Version);
                Ok(self)
            }
            _ => Err(LineFault::Bad(Why::Word)),
        }
    }

    /// `lease N`, from 1 to 3,600 seconds.
    #[tactic(auto, unfolding(crate::specs::Reading::lease_at))]
    fn lease(mut self, words: &[&[u8]]) -> Result<Draft, LineFault>
        ensures { Gives result (spec.lease_at self (map (λ word. word.now) words.now)) }
    {
        match words {
            [_, seconds] => {
                let seconds = number(seconds)?;
                if seconds == 0 || seconds > 3600 {
                    return Err(LineFault::Bad(Why::Number));
                }
                self.last = Some(Kind::Lease);
                self.head.lease = seconds as u32;
                Ok(self)
            }
            _ => Err(LineFault::Bad(Why::Word)),
        }
    }

    /// `server NAME`.
    #[tactic(auto, unfolding(crate::specs::Reading::with_server))]
    fn with_server(mut self, alloc: Global, name: &[u8]) -> Result<Draft, LineFault>
        ensures { Gives result (spec.with_server self name.now) }
    {
        if !is_new_name(&self.head, name) {
            return Err(LineFault::Bad(Why::Name));
        }
        let name = Bytes::from_slice(alloc, name)?;
        self.head.servers.push(ServerRow { name })?;
        self.last = Some(Kind::Server);
        Ok(self)
    }

    #[tactic(auto, unfolding(crate::specs::Reading::server_at))]
    fn server(self, alloc: Global, words: &[&[u8]]) -> Result<Draft, LineFault>
        ensures { Gives result (spec.server_at self (map (λ word. word.now) words.now)) }
    {
        match words {
            [_, name] => self.with_server(alloc, name),
            _ => Err(LineFault::Bad(Why::Word)),
        }
    }

    /// `fs NAME at SERVER`.
    #[tactic(auto, unfolding(crate::specs::Reading::with_file_system))]
    fn with_file_system(
        mut self,
        alloc: Global,
        name: &[u8],
        keyword: &[u8],
        server: &[u8],
    ) -> Result<Draft, LineFault>
        ensures { Gives result (spec.with_file_system self name.now keyword.now server.now) }
    {
        if !is_word(keyword, b"at") {
            return Err(LineFault::Bad(Why::Word));
        }
        if !is_new_name(&self.head, name) {
            return Err(LineFault::Bad(Why::Name));
        }
        let at = server_number(&self.head, server)?;
        let name = Bytes::from_slice(alloc, name)?;
        self.head.file_systems.push(FsRow { name, at })?;
        self.last = Some(Kind::FileSystem);
        Ok(self)
    }

    #[tactic(auto, unfolding(crate::specs::Reading::file_system_at))]
    fn file_system(self, alloc: Global, words: &[&[u8]]) -> Result<Draft, LineFault>
        ensures { Gives result (spec.file_system_at self (map (λ word. word.now) words.now)) }
    {
        match words {
            [_, name, keyword, server] => self.with_file_system(alloc, name, keyword, server),
            _ => Err(LineFault::Bad(Why::Word)),
        }
    }

    /// `client NAME VERIFIER`.
    #[tactic(auto, unfolding(crate::specs::Reading::with_client))]
    fn with_client(
        mut self,
        alloc: Global,
        name: &[u8],
        verifier: &[u8],
    ) -> Result<Draft, LineFault>
        ensures { Gives result (spec.with_client self name.now verifier.now) }
    {
        if !is_new_name(&self.head, name) {
            return Err(LineFault::Bad(Why::Name));
        }
        let verifier = number(verifier)?;
        let name = Bytes::from_slice(alloc, name)?;
        self.head.clients.push(ClientRow { name, verifier })?;
        self.last = Some(Kind::Client);
        Ok(self)
    }

    #[tactic(auto, unfolding(crate::specs::Reading::client_at))]
    fn client(self, alloc: Global, words: &[&[u8]]) -> Result<Draft, LineFault>
        ensures { Gives result (spec.client_at self (map (λ word. word.now) words.now)) }
    {
        match words {
            [_, name, verifier] => self.with_client(alloc, name, verifier),
            _ => Err(LineFault::Bad(Why::Word)),
        }
    }

    /// A line that is run.
    #[tactic(auto, unfolding(crate::specs::Reading::run_at))]
    fn run(mut self, alloc: Global, words: &[&[u8]]) -> Result<Draft, LineFault>
        ensures { Gives result (spec.run_at self (map (λ word. word.now) words.now)) }
    {
        let line = run_line(alloc, &self.head, words)?;
        self.lines.push(line)?;
        self.last = Some(Kind::Run);
        Ok(self)
    }

    /// Takes the words of a line that says something.
    #[tactic(auto, unfolding(crate::specs::Reading::words_at))]
    fn take_words(self, alloc: Global, words: &[&[u8]]) -> Result<Draft, LineFault>
        ensures { Gives result (spec.words_at self (map (λ word. word.now) words.now)) }
    {
        let kind = first_kind(words);
        if !may_follow(self.last, kind) {
            return Err(LineFault::Bad(Why::Head));
        }
        if has_empty_word(words) {
            return Err(LineFault::Bad(Why::Word));
        }
        match kind {
            Kind::Version => self.version(words),
            Kind::Lease => self.lease(words),
            Kind::Server => self.server(alloc, words),
            Kind::FileSystem => self.file_system(alloc, words),
            Kind::Client => self.client(alloc, words),
            Kind::Run => self.run(alloc, words),
        }
    }

    /// Whether these words are a server, a file system or a client past the last one that is taken.
    #[tactic(auto, unfolding(crate::specs::Reading::is_past_last))]
    fn is_past_last(&self, words: &[&[u8]]) -> bool
        ensures { result ≡ spec.is_past_last self.now (map (λ word. word.now) words.now) }
    {
        let kind = first_kind(words);
        is_full(&self.head, kind) && may_follow(self.last, kind)
    }

    /// Takes one line, without its line feed.
    #[tactic(auto, unfolding(crate::specs::Reading::line_at))]
    pub(crate) fn take_line(self, alloc: Global, line: &[u8]) -> Result<Draft, LineFault>
        ensures { Gives result (spec.line_at self line.now) }
    {
        if line.len() > LINE_LENGTH_LIMIT {
            return Err(LineFault::Bad(Why::Limit));
        }
        let words = words_of(alloc, line)?;
        if self.is_past_last(&words) {
            return Err(LineFault::Bad(Why::Limit));
        }
        if !is_printable(line) {
            return Err(LineFault::Bad(Why::Bytes));
        }
        if !says_something(line) {
            return Ok(self);
        }
        self.take_words(alloc, &words)
    }

    /// The script, where the head is whole: where a server stood.
    pub(crate) fn finish(self) -> Option<Script>
        ensures { result ≡ spec.finished self }
    {
        if self.head.servers.items().is_empty() {
            return None;
        }
        Some(Script {
            head: self.head,
            lines: self.lines,
        })
    }
}
