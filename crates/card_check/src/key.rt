// The keys of card files, with what stands after each.
ghost use Rattle.std.specs.Prelude.{◌≡◌};
ghost use Rattle.card_check.specs.Keys.{expected_words, further_key_of, key_of};

/// A key of a card file.
#[derive(Clone, Copy, Debug, PartialEq, Eq)]
pub enum Key {
    Kind,
    Ocr,
    Cid,
    Csd,
    Sectors,
    Ready,
    Busy,
    Early,
    Length,
    Stop,
    SlowStatus,
    LateStatus,
    LongReady,
    LongBusy,
    LongSlowStatus,
    GoesOn,
    Locked,
    Fault,
    Scr,
    Rca,
    Cmd8,
    HighSpeed,
    R6App,
    Ext,
    ExtChanges,
}

impl Key {
    /// The key of this name.
    #[tactic(auto, unfolding(crate::specs::Keys::key_of))]
    pub fn by(name: &[u8]) -> Option<Key>
        ensures { result ≡ key_of name.now }
    {
        if name == b"kind".as_slice() {
            Some(Key::Kind)
        } else if name == b"ocr".as_slice() {
            Some(Key::Ocr)
        } else if name == b"cid".as_slice() {
            Some(Key::Cid)
        } else if name == b"csd".as_slice() {
            Some(Key::Csd)
        } else if name == b"sectors".as_slice() {
            Some(Key::Sectors)
        } else if name == b"ready".as_slice() {
            Some(Key::Ready)
        } else if name == b"busy".as_slice() {
            Some(Key::Busy)
        } else if name == b"early".as_slice() {
            Some(Key::Early)
        } else if name == b"length".as_slice() {
            Some(Key::Length)
        } else if name == b"stop".as_slice() {
            Some(Key::Stop)
        } else if name == b"slow-status".as_slice() {
            Some(Key::SlowStatus)
        } else if name == b"locked".as_slice() {
            Some(Key::Locked)
        } else if name == b"fault".as_slice() {
            Some(Key::Fault)
        } else if name == b"scr".as_slice() {
            Some(Key::Scr)
        } else if name == b"rca".as_slice() {
            Some(Key::Rca)
        } else if name == b"cmd8".as_slice() {
            Some(Key::Cmd8)
        } else if name == b"highspeed".as_slice() {
            Some(Key::HighSpeed)
        } else if name == b"ext".as_slice() {
            Some(Key::Ext)
        } else {
            Key::further(name)
        }
    }

    // The key of this name, where it is none of the others.
    #[tactic(auto, unfolding(crate::specs::Keys::further_key_of))]
    fn further(name: &[u8]) -> Option<Key>
        ensures { result ≡ further_key_of name.now }
    {
        if name == b"late-status".as_slice() {
            Some(Key::LateStatus)
        } else if name == b"long-ready".as_slice() {
            Some(Key::LongReady)
        } else if name == b"long-busy".as_slice() {
            Some(Key::LongBusy)
        } else if name == b"long-slow-status".as_slice() {
            Some(Key::LongSlowStatus)
        } else if name == b"goes-on".as_slice() {
            Some(Key::GoesOn)
        } else if name == b"r6-app".as_slice() {
            Some(Key::R6App)
        } else if name == b"ext-changes".as_slice() {
            Some(Key::ExtChanges)
        } else {
            None
        }
    }

    /// What stands after it in a line.
    pub fn expected(self) -> &'static [u8]
        ensures { result.now ≡ expected_words self }
    {
        match self {
            Key::Kind => b"kind is sd or mmc",
            Key::Ocr => b"ocr is 8 hexadecimal digits",
            Key::Cid => b"cid is 32 hexadecimal digits",
            Key::Csd => b"csd is 32 hexadecimal digits",
            Key::Sectors => b"sectors is a number, of sectors of 512 bytes",
            Key::Ready => b"ready is a number from 0 to 8",
            Key::Busy => b"busy is a number from 0 to 8",
            Key::Early => b"early is a number from 0 to 3",
            Key::Length => b"length is kept or named",
            Key::Stop => b"stop is busy or ready",
            Key::SlowStatus => b"slow-status is a number from 0 to 8",
            Key::LateStatus => b"late-status is a number from 0 to 8",
            Key::LongReady => b"long-ready is a number from 0 to 15",
            Key::LongBusy => b"long-busy is a number from 0 to 15",
            Key::LongSlowStatus => b"long-slow-status is a number from 0 to 15",
            Key::GoesOn => b"goes-on is yes or no",
            Key::Locked => b"locked is yes or no",
            Key::Fault =>
                b"fault is an exchange and one of lose-command, flip-command A [B], lose-reply, flip-reply A [B], fail-switch, fail-switch-late, lose-failed-switch, find-protection, left-over crc|illegal, show-error 8 digits, find-error 8 digits, bad-block, no-block, read-error, lose-block, reject, reject-busy, reject-all, lose-status old|new, fail old|new [8 digits], fail-early old|new [8 digits], fail-unseen old|new [8 digits], busy, brownout old|new",
            Key::Scr => b"scr is 16 hexadecimal digits",
            Key::Rca => b"rca is 4 hexadecimal digits, or changes",
            Key::Cmd8 => b"cmd8 is yes or no",
            Key::HighSpeed => b"highspeed is yes, no, refused-15 or refused-0",
            Key::R6App => b"r6-app is yes or no",
            Key::ExtChanges => b"ext-changes is yes or no",
            Key::Ext => b"ext is a place from 0 to 511, and a byte of two hexadecimal digits",
        }
    }
}
