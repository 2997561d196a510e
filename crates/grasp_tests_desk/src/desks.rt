//! A desk in memory, and one over sockets of the machine.
use grasp_cbor::{Chars, Octets};
use grasp_desk::{CountedDesk, Desk, DeskPlan, MemDesk, MioDesk, Visit, Visiting};
use grasp_io::{Failed, random_seed};
use std::io::{Read, Write};
use std::net::Shutdown;
use std::os::unix::fs::PermissionsExt;
use std::os::unix::net::{UnixListener, UnixStream};
use std::test::Fail;
use std::{fs, io};

type Mio = MioDesk<HostRuntime>;

/// A path that nobody has.
fn free_path(rt: &HostRuntime) -> Result<String, Fail> {
    let mut number = 0u64;
    if let Some(seed) = random_seed(rt) {
        for byte in &seed[..8] {
            number = number << 8 | u64::from(*byte);
        }
    }
    Ok(format!(in rt.alloc(); "/tmp/grasp_desk.{number}")?)
}

/// A plan with one door.
fn plan(rt: &HostRuntime, path: &str, visitors: u8) -> Result<DeskPlan, Fail> {
    Ok(DeskPlan {
        control: Chars::of(rt.alloc(), path)?,
        guests: None,
        mode: 0o600,
        visitors,
    })
}

/// An open desk at this path.
fn open(rt: &HostRuntime, path: &str, visitors: u8) -> Result<Mio, Fail> {
    let mut desk = MioDesk::new(*rt, rt.alloc())?;
    desk.open(&plan(rt, path, visitors)?)?;
    Ok(desk)
}

/// What comes next is the line of this visitor.
fn is_line(desk: &mut Mio, number: u64, wanted: &[u8]) -> bool {
    match desk.visiting() {
        Visiting::Line { visitor, line } => visitor == number && line.bytes() == wanted,
        _ => false,
    }
}

fn is_left(desk: &mut Mio, number: u64) -> bool {
    matches!(desk.visiting(), Visiting::Left { visitor } if visitor == number)
}

fn is_come(desk: &mut Mio, number: u64, guests: bool) -> bool {
    matches!(
        desk.visiting(),
        Visiting::Came { visitor, guest } if (visitor, guest) == (number, guests)
    )
}

fn is_nothing(desk: &mut Mio) -> bool {
    matches!(desk.visiting(), Visiting::Nothing)
}

#[test]
fn a_desk_in_memory_gives_its_visits(rt: HostRuntime) -> Result<(), Fail> {
    let line = Octets::of(rt.alloc(), b"state")?;
    let visits = [
        Visit {
            asking: 2,
            visiting: Visiting::Came {
                visitor: 1,
                guest: true,
            },
        },
        Visit {
            asking: 1,
            visiting: Visiting::Line { visitor: 1, line },
        },
        Visit {
            asking: 1,
            visiting: Visiting::Came {
                visitor: 3,
                guest: false,
            },
        },
    ];
    let mut desk = MemDesk::new(rt.alloc(), &visits).failing_at(&[2]);
    assert_eq!(rt; desk.open(&plan(&rt, "a", 1)?), Ok(()));
    assert!(rt; matches!(desk.visiting(), Visiting::Nothing));
    assert!(rt;
        matches!(
            desk.visiting(),
            Visiting::Came {
                visitor: 1,
                guest: true
            }
        )
    );
    assert!(rt; matches!(desk.visiting(), Visiting::Line { visitor: 1, .. }));
    assert!(rt; matches!(desk.visiting(), Visiting::Nothing));
    desk.tell(1, b"state = held -");
    desk.tell(1, b"lost");
    assert_eq!(rt;
        (desk.asks(), desk.told().len(), desk.plans().len()),
        (4, 1, 1)
    );
    let counters = desk.counters();
    assert_eq!(rt;
        (counters.came, counters.turned, counters.untold),
        (1, 0, 1)
    );
    let mut refusing = MemDesk::new(rt.alloc(), &[]).refusing();
    assert_eq!(rt; refusing.open(&plan(&rt, "a", 1)?), Err(Failed));
    Ok(())
}

#[test]
fn two_visitors_are_served(rt: HostRuntime) -> Result<(), Fail> {
    let path = free_path(&rt)?;
    let mut desk = open(&rt, path.as_str(), 2)?;
    let mut one = UnixStream::connect(&rt, path.as_str())?;
    assert!(rt; is_come(&mut desk, 1, false));
    let mut other = UnixStream::connect(&rt, path.as_str())?;
    assert!(rt; is_come(&mut desk, 2, false));
    let _ = one.write(b"asa\nwants\nsta")?;
    let _ = other.write(b"\n")?;
    assert!(rt; is_line(&mut desk, 2, b""));
    assert!(rt; is_line(&mut desk, 1, b"asa"));
    assert!(rt; is_line(&mut desk, 1, b"wants"));
    assert!(rt; is_nothing(&mut desk));
    // A third one is turned away, since two are there.
    let mut third = UnixStream::connect(&rt, path.as_str())?;
    assert!(rt; is_nothing(&mut desk));
    assert_eq!(rt; third.read(&mut [0; 8])?, 0);
    // What stands behind a shut side is still given and answered.
    let _ = one.write(b"te\n")?;
    one.shutdown(Shutdown::Write)?;
    assert!(rt; is_line(&mut desk, 1, b"state"));
    desk.tell(1, b"ok");
    desk.tell(7, b"nobody");
    assert!(rt; is_left(&mut desk, 1));
    let mut block = [0u8; 8];
    let count = one.read(&mut block)?;
    assert_eq!(rt; &block[..count], b"ok\n".as_slice());
    drop(other);
    assert!(rt; is_left(&mut desk, 2));
    assert!(rt; is_nothing(&mut desk));
    let counters = desk.counters();
    assert_eq!(rt;
        (counters.came, counters.turned, counters.untold),
        (2, 1, 1)
    );
    desk.settle();
    assert!(rt; UnixStream::connect(&rt, path.as_str()).is_err());
    Ok(())
}

#[test]
fn a_visitor_that_asks_for_too_much_is_sent_away(rt: HostRuntime) -> Result<(), Fail> {
    let path = free_path(&rt)?;
    let mut desk = open(&rt, path.as_str(), 2)?;
    // It never reads.
    let slow = UnixStream::connect(&rt, path.as_str())?;
    assert!(rt; is_come(&mut desk, 1, false));
    let answer = [b'x'; 100_000];
    for _ in 0..20 {
        desk.tell(1, &answer);
    }
    assert!(rt; is_left(&mut desk, 1));
    drop(slow);
    // It never ends its line.
    let mut long = UnixStream::connect(&rt, path.as_str())?;
    long.set_nonblocking(true)?;
    assert!(rt; is_come(&mut desk, 2, false));
    let mut left = false;
    for _ in 0..100 {
        let _ = long.write(&[b'x'; 10_000]);
        left = left || is_left(&mut desk, 2);
    }
    assert!(rt; left);
    desk.settle();
    Ok(())
}

#[test]
fn a_line_may_be_long(rt: HostRuntime) -> Result<(), Fail> {
    let path = free_path(&rt)?;
    let mut desk = open(&rt, path.as_str(), 2)?;
    let mut long = UnixStream::connect(&rt, path.as_str())?;
    assert!(rt; is_come(&mut desk, 1, false));
    for _ in 0..65 {
        let _ = long.write(&[b'x'; 4000])?;
        assert!(rt; is_nothing(&mut desk));
    }
    let _ = long.write(b"\n")?;
    assert!(rt; matches!(desk.visiting(), Visiting::Line { line, .. } if line.len() == 260_000));
    desk.settle();
    Ok(())
}

#[test]
fn a_path_may_be_taken(rt: HostRuntime) -> Result<(), Fail> {
    let path = free_path(&rt)?;
    // A dead node's socket is removed.
    drop(UnixListener::bind(&rt, path.as_str())?);
    let mut desk = open(&rt, path.as_str(), 1)?;
    let mode = fs::metadata(&rt, path.as_str())?.permissions().mode();
    assert_eq!(rt; mode & 0o777, 0o600);
    let mut second = MioDesk::new(rt, rt.alloc())?;
    assert_eq!(rt; second.open(&plan(&rt, path.as_str(), 1)?), Err(Failed));
    let Some(fault) = second.why() else {
        return Err(Fail::new("no fault"));
    };
    let text = format!(in rt.alloc(); "{fault}")?;
    assert_eq!(rt; text.as_str(), "control socket in use");
    desk.settle();
    // A file stays.
    fs::write(&rt, path.as_str(), b"mine")?;
    assert_eq!(rt; second.open(&plan(&rt, path.as_str(), 1)?), Err(Failed));
    assert_eq!(rt; fs::metadata(&rt, path.as_str())?.len(), 4);
    fs::remove_file(&rt, path.as_str())?;
    let none = "/nowhere/control";
    assert_eq!(rt; second.open(&plan(&rt, none, 1)?), Err(Failed));
    let Some(fault) = second.why() else {
        return Err(Fail::new("no fault"));
    };
    let text = format!(in rt.alloc(); "{fault}")?;
    assert_eq!(rt;
        text.as_str(),
        "control /nowhere/control: No such file or directory (os error 2)"
    );
    Ok(())
}

#[test]
fn guests_have_a_door_of_their_own(rt: HostRuntime) -> Result<(), Fail> {
    let path = free_path(&rt)?;
    let guests = free_path(&rt)?;
    let mut desk = MioDesk::new(rt, rt.alloc())?;
    let plan = DeskPlan {
        guests: Some(Chars::of(rt.alloc(), guests.as_str())?),
        ..plan(&rt, path.as_str(), 4)?
    };
    assert_eq!(rt; desk.open(&plan), Ok(()));
    let mut guest = UnixStream::connect(&rt, guests.as_str())?;
    assert!(rt; is_come(&mut desk, 1, true));
    let _ = guest.write(b"stop\n")?;
    assert!(rt; is_line(&mut desk, 1, b"stop"));
    desk.settle();
    assert!(rt; UnixStream::connect(&rt, guests.as_str()).is_err());
    Ok(())
}
