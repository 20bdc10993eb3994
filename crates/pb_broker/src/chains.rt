//! Laws of calls one after the other over one device, whatever crashes between and in them, as contracts of functions that do nothing.
ghost use Rattle.std.specs.Prelude.{ℕ, ◌≤◌, List, length};
ghost use Rattle.pb_pmem.specs.declared.line.Line.{Line};
ghost use Rattle.pb_pmem.specs.Crash.{IsCrashImageAt};
ghost use Rattle.pb_object.specs.declared.request.Ask.{Ask};
ghost use Rattle.pb_object.specs.declared.request.Reply.{Reply};
ghost use Rattle.pb_report.specs.declared.outcome.Outcome.{Outcome};
ghost use Rattle.pb_broker.specs.Chain.{Point, Called, Chain, Steps, IsHandedBack, IsReadyAgain, IsCrashed, HasOneHistory, HasRequests, FollowsFrom, HasSaid, IsBehind, IsApplied, HasPrinted, IsReplied};

/// At each point of a chain there is one history: the rounds recorded since the region was made are legal, no number of a
/// client stands twice in them, and the device represents the standing after them.
pub fn a_chain_has_one_history()
    ensures { (now : Point) → Chain now → HasOneHistory now }
{}

/// A chain goes on behind each call that was handed back: the device is ready for the next one, with no region alone or with one.
pub fn a_chain_goes_on()
    ensures { (now : Point) → Chain now → (called : Called now.tale) → (next : Point) × IsHandedBack now called next × IsReadyAgain next.tale }
{}

/// And behind each crash: whatever a crash leaves at a moment of a call stands for the first rounds of that history, or is no region; and
/// it is ready for the next call.
pub fn a_crash_cuts_the_history()
    ensures { (now : Point) (called : Called now.tale) (moment : ℕ) (image : List Line)
        → Chain now
        → length now.tale.log ≤ moment
        → moment ≤ length called.after.log
        → IsCrashImageAt called.after.base called.after.log moment image
        → (next : Point) × IsCrashed now called moment image next × IsReadyAgain next.tale }
{}

/// The outcomes of a call's requests are judged by what that history left: which requests of a client are kept, and with which replies.
pub fn each_outcome_follows_from_the_history()
    ensures { (now : Point) (called : Called now.tale) (asks : List Ask) (list : List Outcome)
        → Chain now
        → HasRequests called.answered.ending asks list
        → FollowsFrom now called asks list }
{}

/// A request that a call said was applied, now or earlier, stays applied at each later point, whatever crashes after the call.
pub fn what_was_applied_stays()
    ensures { (before next now : Point) (called : Called before.tale) (client number count : ℕ)
        → Chain before
        → HasSaid called.answered.ending client number
        → IsBehind before called next
        → Steps count next now
        → IsApplied now client number }
{}

/// Each reply that a call prints is that of the request's place in this history, and stays so at each later point, whatever
/// crashes after the call; or the region began with it, as the reply of a kept request.
pub fn each_printed_reply_has_its_place()
    ensures { (before next now : Point) (called : Called before.tale) (ask : Ask) (reply : Reply) (count : ℕ)
        → Chain before
        → HasPrinted called.answered.ending ask reply
        → IsBehind before called next
        → Steps count next now
        → IsReplied now ask reply }
{}
