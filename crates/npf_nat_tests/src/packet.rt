// Packets and what is changed in them.
use npf_types::{Addr, Change, End, Facts, L4, Segment};

pub fn udp(sport: u16, dport: u16) -> L4 {
    L4::Udp { sport, dport }
}

pub fn tcp(sport: u16, dport: u16) -> L4 {
    L4::Tcp {
        sport,
        dport,
        seg: Segment {
            flags: 2,
            seq: 1,
            ack: 0,
            win: 1000,
            len: 0,
            scale: None,
        },
        mss_at: None,
    }
}

pub fn icmp(echo: Option<u16>) -> L4 {
    L4::Icmp {
        kind: 8,
        code: 0,
        echo,
    }
}

pub fn packet(src: Addr, dst: Addr, proto: u8, l4: L4) -> Facts {
    Facts {
        src,
        dst,
        proto,
        ip_at: 0,
        l4_at: 20,
        end: 60,
        l4,
    }
}

pub fn source(addr: Addr, port: Option<u16>) -> Change {
    Change {
        src: Some(End { addr, port }),
        dst: None,
        neutral: false,
    }
}

pub fn destination(addr: Addr, port: Option<u16>) -> Change {
    Change {
        src: None,
        dst: Some(End { addr, port }),
        neutral: false,
    }
}
