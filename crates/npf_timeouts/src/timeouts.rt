// The seven times.
ghost use Rattle.std.specs.Prelude.{◌≡◌};
ghost use Rattle.npf_timeouts.specs.Timeouts.{are_default, is_timeout, timeout_of, with_timeout};

/// The greatest time that can be set, in seconds: in thousandths of a second it still fits 32 bits, as NetBSD keeps it.
const GREATEST: u32 = 4_294_967;

/// For how many seconds a connection may be idle, from 0 to 4,294,967,295, by what its packets have shown (npf-params(7)).
/// `tcp_new` is for a connection of TCP that opens, `tcp_established` for one that is open, `tcp_half_close` for one of which
/// a side has sent FIN, `tcp_time_wait` for one that both sides have closed, and `tcp_close` for one that was reset. The last
/// two are for other protocols, before an answer and behind it.
#[derive(Clone, Copy, Debug, PartialEq, Eq)]
pub struct Timeouts {
    pub tcp_new: u32,
    pub tcp_established: u32,
    pub tcp_half_close: u32,
    pub tcp_time_wait: u32,
    pub tcp_close: u32,
    pub other_new: u32,
    pub other_established: u32,
}

/// One of the seven times.
#[derive(Clone, Copy, Debug, PartialEq, Eq)]
pub enum Timeout {
    TcpNew,
    TcpEstablished,
    TcpHalfClose,
    TcpTimeWait,
    TcpClose,
    OtherNew,
    OtherEstablished,
}

impl Timeouts {
    /// What holds where no configuration says anything else.
    pub const DEFAULT: Timeouts = Timeouts {
        tcp_new: 30,
        tcp_established: 86_400,
        tcp_half_close: 3_600,
        tcp_time_wait: 240,
        tcp_close: 10,
        other_new: 30,
        other_established: 60,
    };

    /// One of these times, in seconds.
    pub fn get(&self, timeout: Timeout) -> u32
        ensures { result ≡ timeout_of self.now timeout }
    {
        match timeout {
            Timeout::TcpNew => self.tcp_new,
            Timeout::TcpEstablished => self.tcp_established,
            Timeout::TcpHalfClose => self.tcp_half_close,
            Timeout::TcpTimeWait => self.tcp_time_wait,
            Timeout::TcpClose => self.tcp_close,
            Timeout::OtherNew => self.other_new,
            Timeout::OtherEstablished => self.other_established,
        }
    }

    /// These times with one of them set to another number of seconds.
    pub fn with(self, timeout: Timeout, seconds: u32) -> Timeouts
        ensures { result ≡ with_timeout timeout seconds self }
    {
        let mut times = self;
        match timeout {
            Timeout::TcpNew => times.tcp_new = seconds,
            Timeout::TcpEstablished => times.tcp_established = seconds,
            Timeout::TcpHalfClose => times.tcp_half_close = seconds,
            Timeout::TcpTimeWait => times.tcp_time_wait = seconds,
            Timeout::TcpClose => times.tcp_close = seconds,
            Timeout::OtherNew => times.other_new = seconds,
            Timeout::OtherEstablished => times.other_established = seconds,
        }
        times
    }

    /// Whether each of these times is that which holds where no configuration says anything else.
    pub fn are_default(&self) -> bool
        ensures { result ≡ are_default self.now }
    {
        self.tcp_new == Timeouts::DEFAULT.tcp_new
            && self.tcp_established == Timeouts::DEFAULT.tcp_established
            && self.tcp_half_close == Timeouts::DEFAULT.tcp_half_close
            && self.tcp_time_wait == Timeouts::DEFAULT.tcp_time_wait
            && self.tcp_close == Timeouts::DEFAULT.tcp_close
            && self.other_new == Timeouts::DEFAULT.other_new
            && self.other_established == Timeouts::DEFAULT.other_established
    }
}

/// Whether a time can be set to so many seconds: from 1 to 4,294,967.
pub fn is_timeout(seconds: u32) -> bool
    ensures { result ≡ is_timeout seconds }
{
    1 <= seconds && seconds <= GREATEST
}
