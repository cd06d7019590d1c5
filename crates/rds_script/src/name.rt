ghost use Rattle.std.specs.Prelude.{◌≡◌, length};

/// The first word of a line that has a command.
#[derive(Clone, Copy, Debug, PartialEq, Eq)]
pub(crate) enum Name {
    Hosts,
    Bind,
    BindAny,
    Send,
    Recv,
    Cancel,
    Close,
    Open,
    Move,
    Cut,
    Drain,
}

impl Name {
    ghost use Rattle.rds_script.specs.Reading.{name_of, is_hosts, places_of};

    /// The name that a word is, if any.
    #[tactic(auto, unfolding(crate::specs::Reading::name_of))]
    pub(crate) fn of(word: &[u8]) -> Option<Name>
        ensures { result ≡ name_of word.now }
    {
        match word {
            b"hosts" => Some(Name::Hosts),
            b"bind" => Some(Name::Bind),
            b"bindany" => Some(Name::BindAny),
            b"send" => Some(Name::Send),
            b"recv" => Some(Name::Recv),
            b"cancel" => Some(Name::Cancel),
            b"close" => Some(Name::Close),
            b"open" => Some(Name::Open),
            b"move" => Some(Name::Move),
            b"cut" => Some(Name::Cut),
            b"drain" => Some(Name::Drain),
            _ => None,
        }
    }

    /// Whether it says how many hosts there are.
    pub(crate) fn is_hosts(self) -> bool
        ensures { result ≡ is_hosts self }
    {
        matches!(self, Name::Hosts)
    }

    /// How many words follow it.
    pub(crate) fn places(self) -> usize
        ensures { result ≡ length (places_of self) }
    {
        match self {
            Name::Drain => 0,
            Name::Hosts => 1,
            Name::Recv | Name::Close | Name::Open | Name::Cut => 2,
            Name::Move => 3,
            Name::Bind | Name::BindAny | Name::Cancel => 4,
            Name::Send => 5,
        }
    }
}
