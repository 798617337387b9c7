//! A control through asks, beginnings and answers, by rows.

ghost use Rattle.std.specs.Prelude.{◌<◌};

use control_plane::{Control, Phase};
use mind_base::{Command, Span};

/// A call, by the index of a command or the number of a blade where it has one.
#[derive(Clone, Copy, Debug)]
enum Call {
    Ask(u32),
    Begin,
    Answer(u8),
    Finish,
}

/// A call, whether it did what it says, and the phase behind it.
#[derive(Clone, Copy)]
struct Row(Call, bool, Phase);

const FREE: Phase = Phase::Free;

const fn closing(index: u32, number: u32, waiting: u8) -> Phase {
    Phase::Closing {
        index,
        number,
        waiting,
    }
}

const fn applying(index: u32, number: u32) -> Phase {
    Phase::Applying { index, number }
}

fn unmap() -> Command {
    Command::Unmap {
        span: Span {
            domain: 0,
            base: 3,
            pages: 2,
        },
    }
}

fn answer(control: &mut Control, blade: u8) -> bool {
    let Phase::Closing {
        number,
        waiting,
        ..
    } = control.phase()
    else {
        return false;
    };
    if blade < 8 && (waiting >> blade) & 1 == 1 {
        control.closed(number, blade);
        return true;
    }
    false
}

fn finish(control: &mut Control) -> bool {
    let Phase::Applying { .. } = control.phase() else {
        return false;
    };
    control.finish();
    true
}

fn make(control: &mut Control, call: Call) -> bool {
    match call {
        Call::Ask(index) => control.ask(index, unmap()).is_ok(),
        Call::Begin => control.begin(),
        Call::Answer(blade) => answer(control, blade),
        Call::Finish => finish(control),
    }
}

/// Two commands in a rack with the blades 0 and 2.
#[test]
fn the_second_command_begins_when_the_first_has_ended(rt: HostRuntime) {
    let mut control = Control::new(rt.alloc(), 0b101);
    let rows = [
        Row(Call::Begin, false, FREE),
        Row(Call::Ask(7), true, FREE),
        Row(Call::Ask(1_000_003), true, FREE),
        Row(Call::Begin, true, closing(7, 1, 0b101)),
        Row(Call::Begin, false, closing(7, 1, 0b101)),
        Row(Call::Answer(2), true, closing(7, 1, 0b001)),
        Row(Call::Finish, false, closing(7, 1, 0b001)),
        Row(Call::Answer(2), false, closing(7, 1, 0b001)),
        Row(Call::Answer(0), true, applying(7, 1)),
        Row(Call::Begin, false, applying(7, 1)),
        Row(Call::Finish, true, FREE),
        Row(Call::Begin, true, closing(1_000_003, 2, 0b101)),
        Row(Call::Answer(0), true, closing(1_000_003, 2, 0b100)),
        Row(Call::Answer(2), true, applying(1_000_003, 2)),
        Row(Call::Finish, true, FREE),
        Row(Call::Begin, false, FREE),
    ];
    for row in &rows {
        assert_eq!(rt; make(&mut control, row.0), row.1);
        assert_eq!(rt; control.phase(), row.2);
        assert_eq!(rt; control.current().is_none(), row.2 == FREE);
    }
}
