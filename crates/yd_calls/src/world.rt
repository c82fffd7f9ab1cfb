//! The board in memory, and a file that the system lacks.

use std::test::Fail;
use yd_world::{
    Blob8, Event, Failed, FileLibrary, Library, Outage, ScriptBoard, Sent, Session, Switchboard,
    Way, What,
};

#[test]
fn a_board_with_a_script_tells_what_was_sent(rt: HostRuntime) -> Result<(), Fail> {
    let mut board = ScriptBoard::new(rt.alloc());
    let bytes = Blob8::copy_of(rt.alloc(), b"hi")?;
    board.add(Event {
        now: 5,
        what: What::Received(Session(1), bytes),
    })?;
    board.fail_at(3)?;
    board.start("x", Way::Listen)?;
    let event = board.next()?;
    assert_eq!(rt; event.now, 5);
    match event.what {
        What::Received(from, bytes) => {
            assert_eq!(rt; from, Session(1));
            assert_eq!(rt; bytes.as_slice(), b"hi".as_slice());
        }
        _ => assert!(rt; false, "another event"),
    }
    board.send(Session(1), b"yes")?;
    assert_eq!(rt; board.send(Session(1), b"no"), Err(Outage::Failed));
    board.close(Session(1), "done")?;
    let failures = board.sent().iter().filter(|sent| is_failed(sent)).count();
    assert_eq!(rt; failures, 1);
    assert_eq!(rt; board.sent().len(), 3);
    assert!(rt; board.next().is_err());
    Ok(())
}

fn is_failed(sent: &Sent) -> bool {
    matches!(sent, Sent::Message { failed: true, .. })
}

#[test]
fn a_file_that_the_system_lacks_is_a_fault(rt: HostRuntime) {
    let mut library = FileLibrary::new(&rt);
    assert_eq!(rt; library.begin("no such folder/no such file"), Err(Failed));
    assert_eq!(rt; library.read(&mut [0; 4]), Ok(0));
}
