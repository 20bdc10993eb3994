//! Random chains of calls over one device, with crashes and failing calls between and in them. What each call prints is compared with
//! plain objects: each number is used once, and each of the last eight requests of a client is answered again.
//!
//! The requests of one script are one client's, or those of several clients who share no register, so each reply is certain in
//! whatever order the workers come. Whose requests a crash left, the report tells.
use crate::asking::{
    Asking, Line, answered, beginning, cut, form_text, is_report, last, recorded, script_text, told,
};
use crate::calls::{after, call, cuts, fails, log_len, says, zeros};
use crate::draws::Draws;
use crate::drills::{REGISTERS, are_apart, drilled, summary_text};
use crate::plain::{Form, Wish};
use crate::stops::{NOWHERE, rounds_left};
use pb_crash::Leaves;
use pb_image::{Call, Image};
use std::alloc::Global;
use std::process::Abort;
use std::sync::Wait;
use std::thread::Threads;

// A device, whether it has a region, and what was recorded there.
#[derive(Drop)]
struct Chain {
    device: Image,
    is_there: bool,
    asking: Asking,
}

// A call with its script, which for a drill is the one that its seed makes.
#[derive(Drop)]
struct Calling {
    words: String,
    text: String,
    script: Vec<Line>,
    is_drill: bool,
}

// What a call left: a device, whether it has a region and how many rounds were made, where these are known, and the requests that were
// recorded before the call, and now at least and at most.
#[derive(Drop)]
struct Left {
    device: Image,
    is_there: Option<bool>,
    rounds: Option<usize>,
    before: Asking,
    least: Asking,
    most: Asking,
}

// Any operation of an object.
fn any_wish(draws: &mut Draws, form: Form) -> Wish {
    let which = draws.below(5);
    let value = draws.below(9);
    match form {
        Form::Map => match which {
            0 => Wish::Get(value),
            1 => Wish::Cas(draws.below(9), draws.below(3), value),
            _ => Wish::Put(draws.below(9), value),
        },
        Form::Stack => match which {
            0 => Wish::Top,
            1 => Wish::Pop,
            2 => Wish::Pop,
            _ => Wish::Push(value),
        },
        Form::Heap => match which {
            0 => Wish::Min,
            1 => Wish::RemoveMin,
            2 => Wish::RemoveMin,
            _ => Wish::Insert(value),
        },
        Form::Queue => match which {
            0 => Wish::Take,
            1 => Wish::Take,
            _ => Wish::Add(value),
        },
    }
}

// A register of this client alone.
fn own_register(k: u64, client: u32, clients: u32) -> u64 {
    let over = k.checked_rem(u64::from(clients)).unwrap_or(0);
    k.saturating_sub(over).saturating_add(u64::from(client))
}

// The same operation of a register of this client alone.
fn own_wish(wish: Wish, client: u32, clients: u32) -> Wish {
    match wish {
        Wish::Get(k) => Wish::Get(own_register(k, client, clients)),
        Wish::Put(k, v) => Wish::Put(own_register(k, client, clients), v),
        Wish::Cas(k, version, v) => Wish::Cas(own_register(k, client, clients), version, v),
        _ => wish,
    }
}

// The operation of a line: mostly the one that its number has, where it has one.
fn wish_at(draws: &mut Draws, asking: &Asking, (client, number): (u32, u64), is_own: bool) -> Wish {
    let fresh = any_wish(draws, asking.plain.form);
    let is_changed = draws.below(16) == 0;
    match recorded(asking, client, number) {
        Some((wish, _)) if !is_changed => wish,
        _ if is_own => own_wish(fresh, client, asking.clients),
        _ => fresh,
    }
}

// A client.
fn any_client(draws: &mut Draws, asking: &Asking) -> u32 {
    let drawn = draws.below(u64::from(asking.clients)).min(15);
    drawn as u32
}

// Where the lines of each client begin: a little before its next number, or there, or seldom behind it.
fn any_firsts(
    rt: &(impl Abort + Wait + Threads + Sync),
    alloc: Global,
    draws: &mut Draws,
    asking: &Asking,
) -> Vec<u64> {
    let mut firsts = Vec::new(alloc);
    for client in 0..asking.clients {
        let back = draws.below(4).saturating_mul(draws.below(4));
        let ahead = if draws.below(12) == 0 { 2 } else { 1 };
        let first = last(asking, client)
            .saturating_add(ahead)
            .saturating_sub(back);
        firsts.push(first.max(1)).expect(rt, "memory");
    }
    firsts
}

// A client's next number, which is used so.
fn take_next(nexts: &mut [u64], client: u32) -> u64 {
    for (place, next) in nexts.iter_mut().enumerate() {
        if place == client as usize {
            let number = *next;
            *next = number.saturating_add(1);
            return number;
        }
    }
    1
}

// A script of one client, or of a map's clients with registers of their own.
fn any_script(
    rt: &(impl Abort + Wait + Threads + Sync),
    alloc: Global,
    draws: &mut Draws,
    asking: &Asking,
) -> Vec<Line> {
    let one = any_client(draws, asking);
    let are_many = asking.plain.form == Form::Map && draws.below(2) == 0;
    let mut nexts = any_firsts(rt, alloc, draws, asking);
    let count = draws.below(if are_many { 10 } else { 5 });
    let mut lines = Vec::new(alloc);
    for _ in 0..count {
        let client = if are_many {
            any_client(draws, asking)
        } else {
            one
        };
        let number = take_next(&mut nexts, client);
        let wish = wish_at(draws, asking, (client, number), are_many);
        lines.push((client, number, wish)).expect(rt, "memory");
    }
    lines
}

// A drill whose clients share no register.
fn any_drill(
    rt: &(impl Abort + Wait + Threads + Sync),
    alloc: Global,
    draws: &mut Draws,
    clients: u32,
) -> Option<Calling> {
    let seed = draws.below(1_000_000);
    let count = draws.below(4).saturating_add(1);
    let script = drilled(rt, alloc, seed, clients, count);
    if !are_apart(&script) {
        return None;
    }
    Some(Calling {
        words: format!(in alloc; "drill {seed} {clients} {count}").expect(rt, "memory"),
        text: String::new(alloc),
        script,
        is_drill: true,
    })
}

// The words of a call with a script.
fn words(
    rt: &(impl Abort + Wait + Threads + Sync),
    alloc: Global,
    asking: &Asking,
    is_there: bool,
) -> String {
    let form = form_text(asking.plain.form);
    let clients = asking.clients;
    let size = asking.plain.size;
    let words = if is_there {
        format!(in alloc; "run")
    } else {
        format!(in alloc; "fresh {form} {clients} {size}")
    };
    words.expect(rt, "memory")
}

// The next call: a drill where none fails in it, or its client is one, so that the sums tell how far it came.
fn any_calling(
    rt: &(impl Abort + Wait + Threads + Sync),
    alloc: Global,
    draws: &mut Draws,
    chain: &Chain,
    is_calm: bool,
) -> Calling {
    let asking = &chain.asking;
    let clients = asking.clients;
    let is_drill = !chain.is_there && asking.plain.size == REGISTERS;
    if is_drill && (is_calm || clients == 1) {
        if let Some(drill) = any_drill(rt, alloc, draws, clients) {
            return drill;
        }
    }
    let script = any_script(rt, alloc, draws, asking);
    Calling {
        words: words(rt, alloc, asking, chain.is_there),
        text: script_text(rt, alloc, &script),
        script,
        is_drill: false,
    }
}

// What a call prints, and its status, where the device fails at the line of this place, or at none.
fn said(
    rt: &(impl Abort + Wait + Threads + Sync),
    alloc: Global,
    asking: &mut Asking,
    calling: &Calling,
    failing: usize,
) -> (String, u8) {
    let (text, status) = answered(rt, alloc, asking, &calling.script, failing);
    if calling.is_drill {
        let requests = calling.script.len();
        return (summary_text(rt, alloc, asking, requests), status);
    }
    (text, status)
}

// A number below one more than the difference of two, added to the first.
fn between(draws: &mut Draws, low: u32, high: u32) -> u32 {
    let count = u64::from(high.saturating_sub(low)).saturating_add(1);
    let drawn = draws.below(count).min(4_000_000);
    low.saturating_add(drawn as u32).min(high)
}

// What a crash leaves at some moment since a call began, and how many rounds of it, with the making or settling as the first.
fn crashed(
    rt: &(impl Abort + Wait + Threads + Sync),
    alloc: Global,
    draws: &mut Draws,
    device: &Image,
    entry: u32,
) -> (Image, usize) {
    let end = log_len(rt, device);
    let moment = between(draws, entry, end);
    let (least, greatest) = cuts(rt, device, moment);
    let cut = between(draws, least, greatest);
    let pick = draws.below(3).saturating_mul(3);
    let leaves_words = cut == greatest && pick > 0;
    let rounds = rounds_left(device.log(), entry, moment, leaves_words);
    (after(rt, alloc, device, moment, (cut, pick)), rounds)
}

// What was recorded behind a call, as the region reports it.
fn reported(rt: &(impl Abort + Wait + Threads + Sync), alloc: Global, left: Left) -> Chain {
    let Left {
        device,
        is_there,
        rounds,
        before,
        least,
        most,
    } = left;
    let (device, (sink, status)) = call(rt, alloc, device, "report", "");
    let has_region = status == 0;
    assert!(rt; is_there.unwrap_or(has_region) == has_region);
    if !has_region {
        assert!(rt; status == 7 && sink.bytes() == b"none\n".as_slice());
        return Chain {
            device,
            is_there: false,
            asking: before,
        };
    }
    let report = str::from_utf8(sink.bytes()).expect(rt, "a text");
    let mut asking = told(rt, alloc, report, (&least, &most));
    let is_told = is_report(rt, alloc, report, &before, &mut asking, rounds);
    assert!(rt; is_told, "{report}");
    Chain {
        device,
        is_there: true,
        asking,
    }
}

// A call in which nothing fails, and perhaps a crash in it.
fn calm(
    rt: &(impl Abort + Wait + Threads + Sync),
    alloc: Global,
    draws: &mut Draws,
    chain: Chain,
) -> Chain {
    let calling = any_calling(rt, alloc, draws, &chain, true);
    let Chain {
        device,
        is_there,
        asking,
    } = chain;
    let entry = log_len(rt, &device);
    let mut all = cut(rt, alloc, &asking, &[]);
    let (text, status) = said(rt, alloc, &mut all, &calling, NOWHERE);
    let call = (calling.words.as_str(), calling.text.as_str());
    let device = says(rt, alloc, device, call, (&text, status));
    let is_crash = draws.below(2) == 0;
    let least = cut(rt, alloc, if is_crash { &asking } else { &all }, &[]);
    let (device, rounds) = if is_crash {
        crashed(rt, alloc, draws, &device, entry)
    } else {
        let end = log_len(rt, &device);
        let rounds = rounds_left(device.log(), entry, end, false);
        (device, rounds)
    };
    let left = Left {
        device,
        is_there: Some(is_there || rounds > 0),
        rounds: Some(rounds.saturating_sub(1)),
        before: asking,
        least,
        most: all,
    };
    reported(rt, alloc, left)
}

// What is recorded for sure behind a call in which the device may have failed, and what is recorded at most.
fn known(
    rt: &(impl Abort + Wait + Threads + Sync),
    alloc: Global,
    asking: &Asking,
    calling: &Calling,
    (bytes, status): (&[u8], u8),
) -> (Asking, Asking) {
    let count = calling.script.len();
    for place in 0..=count {
        let mut least = cut(rt, alloc, asking, &[]);
        let (text, code) = said(rt, alloc, &mut least, calling, place);
        if status == code && text.as_bytes() == bytes {
            let mut most = cut(rt, alloc, &least, &[]);
            if let Some(line) = calling.script.get(place) {
                answered(rt, alloc, &mut most, &[*line], NOWHERE);
            }
            return (least, most);
        }
    }
    assert!(rt; status == 6 && bytes == b"device fault\n".as_slice());
    let least = cut(rt, alloc, asking, &[]);
    let most = cut(rt, alloc, asking, &[]);
    (least, most)
}

// How a call fails.
fn way(draws: &mut Draws) -> Leaves {
    match draws.below(4) {
        0 => Leaves::Left,
        1 => Leaves::Done,
        2 => Leaves::Torn(9),
        _ => Leaves::Fenced,
    }
}

// What the device may be behind a failing call: as it is, or as a crash leaves it.
fn perhaps_crashed(
    rt: &(impl Abort + Wait + Threads + Sync),
    alloc: Global,
    draws: &mut Draws,
    device: Image,
) -> Image {
    if draws.below(2) == 0 {
        return device;
    }
    let end = log_len(rt, &device);
    crashed(rt, alloc, draws, &device, end).0
}

// A call whose device may fail, perhaps a crash behind it, and a settling.
fn failing(
    rt: &(impl Abort + Wait + Threads + Sync),
    alloc: Global,
    draws: &mut Draws,
    chain: Chain,
) -> Chain {
    let calling = any_calling(rt, alloc, draws, &chain, false);
    let Chain {
        mut device,
        is_there,
        asking,
    } = chain;
    let nth = draws.below(120).saturating_add(1);
    fails(rt, alloc, &mut device, Call::Any, nth, way(draws));
    let (mut device, (sink, status)) = call(rt, alloc, device, &calling.words, &calling.text);
    device.failing(Vec::new(alloc));
    let (least, most) = known(rt, alloc, &asking, &calling, (sink.bytes(), status));
    let is_made = is_there || sink.bytes() != b"device fault\n".as_slice();
    let left = Left {
        device: perhaps_crashed(rt, alloc, draws, device),
        is_there: if is_made { Some(true) } else { None },
        rounds: None,
        before: asking,
        least,
        most,
    };
    settled(rt, alloc, reported(rt, alloc, left))
}

// A run without requests.
fn settled(rt: &(impl Abort + Wait + Threads + Sync), alloc: Global, chain: Chain) -> Chain {
    let Chain {
        device,
        is_there,
        asking,
    } = chain;
    let said = if is_there { ("", 0) } else { ("none\n", 7) };
    let device = says(rt, alloc, device, ("run", ""), said);
    Chain {
        device,
        is_there,
        asking,
    }
}

// A call that changes nothing: a region isn't made where one is, and none is run where there is none.
fn refused(rt: &(impl Abort + Wait + Threads + Sync), alloc: Global, chain: Chain) -> Chain {
    let Chain {
        device,
        is_there,
        asking,
    } = chain;
    let entry = log_len(rt, &device);
    let (words, text) = if is_there {
        ("drill 5 2 3", "taken\n")
    } else {
        ("run", "none\n")
    };
    let device = says(rt, alloc, device, (words, ""), (text, 7));
    assert!(rt; log_len(rt, &device) == entry);
    Chain {
        device,
        is_there,
        asking,
    }
}

// The same chain, and the object to be made where there is no region: a map may be a drill's.
fn begun(
    rt: &(impl Abort + Wait + Threads + Sync),
    alloc: Global,
    draws: &mut Draws,
    chain: Chain,
) -> Chain {
    if chain.is_there {
        return chain;
    }
    let Chain { device, asking, .. } = chain;
    let form = asking.plain.form;
    let is_drill = draws.below(2) == 0;
    let size = match form {
        Form::Map if is_drill => REGISTERS,
        Form::Map => 8,
        _ => 4,
    };
    Chain {
        device,
        is_there: false,
        asking: beginning(rt, alloc, asking.clients, (form, size)),
    }
}

// A chain of twenty calls with scripts, and reports between them.
fn one_chain(
    rt: &(impl Abort + Wait + Threads + Sync),
    alloc: Global,
    (form, clients): (Form, u32),
    seed: u64,
) {
    let mut draws = Draws::new(seed);
    let mut chain = Chain {
        device: zeros(rt, alloc),
        is_there: false,
        asking: beginning(rt, alloc, clients, (form, 0)),
    };
    for _ in 0..20 {
        chain = begun(rt, alloc, &mut draws, chain);
        chain = match draws.below(7) {
            0 => refused(rt, alloc, chain),
            1 => failing(rt, alloc, &mut draws, chain),
            2 => failing(rt, alloc, &mut draws, chain),
            _ => calm(rt, alloc, &mut draws, chain),
        };
    }
}

fn chains(rt: &(impl Abort + Wait + Threads + Sync), alloc: Global, form: Form) {
    for seed in 0..10 {
        for clients in 1..=4 {
            one_chain(rt, alloc, (form, clients), seed);
        }
    }
}

#[test]
fn of_a_map(rt: HostRuntime) {
    chains(&rt, rt.alloc(), Form::Map);
}

#[test]
fn of_a_stack(rt: HostRuntime) {
    chains(&rt, rt.alloc(), Form::Stack);
}

#[test]
fn of_a_heap(rt: HostRuntime) {
    chains(&rt, rt.alloc(), Form::Heap);
}

#[test]
fn of_a_queue(rt: HostRuntime) {
    chains(&rt, rt.alloc(), Form::Queue);
}
