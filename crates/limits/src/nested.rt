// Loops one in the other, and a break or continue, a jump, in the innermost: what the check of labels answers. It keeps up to 2,048 of the nodes round a place, and
// fewer where there are at most 256 records; beyond them it looks in the records behind.
use crate::jumps::{Form, Jump, OTHER, OUTERMOST, Records};
use compared::checking::{FINE, Verdict};
use compared::trial::{Place, Trial};
use std::io;

// What is answered of the records that are put.
fn answered<R: Print, F: FnOnce(&mut Records) -> io::Result<()>>(
    trial: &mut Trial<R>,
    memory: &mut [u64],
    place: Place,
    want: Verdict,
    put: F,
) -> io::Result<()>
    requires { F.IsAlwaysCallable put }
{
    let mut records = Records::new(memory);
    put(&mut records)?;
    trial.is_checked(place, records.words(), want)
}

// So many loops, with a jump in them or none.
fn in_loops<R: Print>(
    trial: &mut Trial<R>,
    memory: &mut [u64],
    jump: Option<Jump>,
    times: u64,
    want: Verdict,
) -> io::Result<()> {
    let place = Place::new("jump in loops", times);
    answered(
        trial,
        memory,
        place,
        want,
        |records| records.put_nest(jump, times),
    )
}

// A jump in so many loops: to the outermost one, without a label, and to the other label.
fn jump_in_loops<R: Print>(
    trial: &mut Trial<R>,
    memory: &mut [u64],
    form: Form,
    times: u64,
) -> io::Result<()> {
    // Stays 67, the paper's number, and 68 below: what tries the check takes none of the code's constants.
    let offence = Verdict::new(67, form.record());
    for (label, want) in [(OUTERMOST, FINE), (0, FINE), (OTHER, offence)] {
        in_loops(trial, memory, Some(Jump { form, label }), times, want)?;
    }
    Ok(())
}

// So many loops, with each jump and with none.
fn loops<R: Print>(trial: &mut Trial<R>, memory: &mut [u64], times: u64) -> io::Result<()> {
    in_loops(trial, memory, None, times, FINE)?;
    for form in [Form::Break, Form::Continue, Form::Among, Form::Condition] {
        jump_in_loops(trial, memory, form, times)?;
    }
    Ok(())
}

// A jump in a function, with so many loops but the outermost between them, in so many loops.
// Stays six: the memory is lent beside the trial in each of these functions.
fn in_function<R: Print>(
    trial: &mut Trial<R>,
    memory: &mut [u64],
    jump: Jump,
    inside: u64,
    times: u64,
    want: Verdict,
) -> io::Result<()> {
    let place = Place::new("jump in a function", times);
    answered(trial, memory, place, want, |records| {
        records.put_function(jump, inside)?;
        records.put_loops(times)?;
        records.put_loop(OUTERMOST)
    })
}

// Each jump in a function without loops in so many: it does not lead out of the function.
fn jumps_out<R: Print>(trial: &mut Trial<R>, memory: &mut [u64], times: u64) -> io::Result<()> {
    for form in [Form::Break, Form::Continue, Form::Condition] {
        let record = form.record_in_function();
        for (label, number) in [(0, 68), (OUTERMOST, 67)] {
            in_function(
                trial,
                memory,
                Jump { form, label },
                1,
                times,
                Verdict::new(number, record),
            )?;
        }
    }
    Ok(())
}

// Each jump in a function in so many loops, with fewer in it, the outermost of which has this label: it leads to those in it alone. The next label is that
// of a loop outside.
fn jumps_inside<R: Print>(
    trial: &mut Trial<R>,
    memory: &mut [u64],
    label: u64,
    inside: u64,
    times: u64,
) -> io::Result<()> {
    for form in [Form::Break, Form::Continue, Form::Among] {
        let offence = Verdict::new(67, form.record_in_function());
        for (label, want) in [(label, FINE), (0, FINE), (inside, offence)] {
            in_function(trial, memory, Jump { form, label }, inside, times, want)?;
        }
    }
    Ok(())
}

// A loop without a label, in which an if with a continue stands before so many loops.
fn before<R: Print>(
    trial: &mut Trial<R>,
    memory: &mut [u64],
    label: u64,
    times: u64,
    want: Verdict,
) -> io::Result<()> {
    let place = Place::new("jump before loops", times);
    answered(
        trial,
        memory,
        place,
        want,
        |records| records.put_before(label, times),
    )
}

// One in which a continue stands in so many loops, and one to the same label behind them.
fn behind<R: Print>(
    trial: &mut Trial<R>,
    memory: &mut [u64],
    label: u64,
    times: u64,
    want: Verdict,
) -> io::Result<()> {
    let place = Place::new("jump behind loops", times);
    answered(
        trial,
        memory,
        place,
        want,
        |records| records.put_behind(label, times),
    )
}

// Before so many loops a jump does not lead to those, nor does one behind them, which is the record with this number. Of two that lead nowhere the first is
// answered.
fn jumps_beside<R: Print>(
    trial: &mut Trial<R>,
    memory: &mut [u64],
    times: u64,
    record: u64,
) -> io::Result<()> {
    before(trial, memory, 0, times, FINE)?;
    before(trial, memory, OUTERMOST, times, Verdict::new(67, 2))?;
    behind(trial, memory, 0, times, FINE)?;
    behind(trial, memory, OUTERMOST, times, Verdict::new(67, record))?;
    behind(trial, memory, OTHER, times, Verdict::new(67, 1))
}

// Loops by what is kept of them: at most 256 records, but for 64 loops with more than a continue in them; one fewer than there is room for; as many, and one
// more; many more. A function in loops is kept with them.
fn each_size<R: Print>(trial: &mut Trial<R>, memory: &mut [u64]) -> io::Result<()> {
    for times in [33, 64, 2047, 2048, 2049, 3000] {
        loops(trial, memory, times)?;
    }
    for times in [33, 2046, 2047, 2048, 3000] {
        jumps_out(trial, memory, times)?;
    }
    for (label, inside, times) in [
        (20, 21, 30),
        (1000, 1001, 1046),
        (1500, 1501, 2000),
        (900, 901, 2100),
    ] {
        jumps_inside(trial, memory, label, inside, times)?;
    }
    Ok(())
}

// The last 50,000 loops and a break in them take 400,002 words.
pub fn nests<R: Print>(trial: &mut Trial<R>, memory: &mut [u64]) -> io::Result<()> {
    each_size(trial, memory)?;
    // Beside few loops, as many as there is room for, and many more.
    for (times, record) in [(40, 161), (2048, 8193), (3000, 12001)] {
        jumps_beside(trial, memory, times, record)?;
    }
    in_loops(trial, memory, None, 50000, FINE)?;
    jump_in_loops(trial, memory, Form::Break, 50000)
}
