//! What kind of sink of records a name is of.

ghost use Rattle.std.specs.Prelude.{◌≡◌, ◌++◌, codes};

/// What kind of sink a name is of, with what stands behind the front that says so.
#[derive(Clone, Copy, Debug, PartialEq, Eq)]
pub enum SinkName<'a> {
    /// The path of a file, a named pipe or a device: the whole name.
    Path(&'a str),
    /// `udp:ADDRESS:PORT`: a datagram for each record.
    Datagrams(&'a str),
    /// `unix:PATH`: a stream socket at which a reader listens.
    Stream(&'a str),
    /// `fd:N`: a descriptor that the program was started with.
    Descriptor(&'a str),
}

/// What kind of sink this name is of.
pub fn sink_name(name: &str) -> SinkName<'_>
    ensures path { (path : _) → result ≡ SinkName.Path path → path.now ≡ name.now }
    ensures datagrams { (rest : _) → result ≡ SinkName.Datagrams rest → name.now ≡ codes "udp:" ++ rest.now }
    ensures stream { (rest : _) → result ≡ SinkName.Stream rest → name.now ≡ codes "unix:" ++ rest.now }
    ensures descriptor { (rest : _) → result ≡ SinkName.Descriptor rest → name.now ≡ codes "fd:" ++ rest.now }
{
    if let Some(address) = name.strip_prefix("udp:") {
        return SinkName::Datagrams(address);
    }
    if let Some(path) = name.strip_prefix("unix:") {
        return SinkName::Stream(path);
    }
    if let Some(number) = name.strip_prefix("fd:") {
        return SinkName::Descriptor(number);
    }
    SinkName::Path(name)
}
