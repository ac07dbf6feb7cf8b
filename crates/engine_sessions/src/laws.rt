//! What is true of the answers to blocks, whatever answers them, and of a session's calls however an input is cut.
//! Each law is the contract of a function with an empty body.
ghost use Rattle.std.specs.Prelude.{◌≡◌, List, ℕ, true, false, [], ◌∷◌, ◌++◌, map, Ok, Err, Option, Some, None};
ghost use Rattle.text_bytes.specs.declared.profile.Profile.TheVariants.{Manual};
ghost use Rattle.text_bytes.specs.Text.{Text};
ghost use Rattle.device_core.specs.Runs.{rest_of};
ghost use Rattle.device_core.specs.Values.{EventValue};
ghost use Rattle.device_core.specs.Faults.{block_gives};
ghost use Rattle.device_core.specs.declared.faults.BlockFault.{BlockFault};
ghost use Rattle.engine_sessions.specs.Answers.{Answers, well, answers_to, answers_of};
ghost use Rattle.engine_sessions.specs.Known.{known_blocks};
ghost use Rattle.engine_sessions.specs.Sessions.{Asked, Held, answer_of, answers_as, opened, SessionEnds, CallFailsBy};
ghost use Rattle.engine_sessions.specs.Calls.{Call, TakesAll, GiveAnswers, GiveAll, GiveUntil, used_by, given_by};
ghost use Rattle.engine_sessions.specs.declared.session.SessionFault.TheVariants.{Block};

use crate::answering::Answering;

/// If no block is faulty, the answers are those to the events of all blocks. Otherwise they are those to the events
/// of the blocks before the first faulty one, and its fault, whatever follows it.
pub fn answers_end_at_the_first_fault()
    ensures well { (answer : EventValue → Text) (blocks : List Text) (events : List EventValue)
        → map block_gives blocks ≡ map Ok events
        → answers_to answer blocks ≡ well (map answer events) }
    ensures faulty { (answer : EventValue → Text) (before : List Text) (events : List EventValue) (block : Text) (fault : BlockFault) (following : List Text)
        → map block_gives before ≡ map Ok events → block_gives block ≡ Err fault
        → answers_to answer (before ++ block ∷ following) ≡ record { texts = map answer events; fault = Some fault } }
{}

/// What is known about an input from its first bytes stays, however it goes on: a fault that is known is that of
/// the whole input, with the answers before it; and if none is known, the answers begin with those that are, and go
/// on with those to the rest and what follows it.
pub fn known_answers_stay()
    ensures faulty { (answer : EventValue → Text) (text later : Text) (texts : List Text) (fault : BlockFault)
        → answers_to answer (known_blocks true text) ≡ record { texts = texts; fault = Some fault }
        → answers_of answer (text ++ later) ≡ record { texts = texts; fault = Some fault } }
    ensures well { (answer : EventValue → Text) (text later : Text) (texts : List Text)
        → answers_to answer (known_blocks true text) ≡ well texts
        → answers_of answer (text ++ later) ≡ record {
          texts = texts ++ (answers_of answer (rest_of text ++ later)).texts;
          fault = (answers_of answer (rest_of text ++ later)).fault;
        } }
{}

/// By the manual events are answered as their blocks are read: the event of a block has the manual's profile.
pub fn the_manual_changes_no_event()
    ensures events { (block : Text) (event : EventValue) → block_gives block ≡ Ok event → event.profile ≡ Manual }
    ensures answers { (answer : EventValue → Text) (input : Text) → answers_of (answers_as Manual answer) input ≡ answers_of answer input }
{}

/// However an input is cut into pieces, a new session gives the answers to the complete runs of the bytes that it
/// used and keeps their rest, and with its end those to the whole input. If it reports a faulty block, that ends
/// the answers to the input, whatever comes later.
pub fn answers_do_not_depend_on_the_pieces<A: Answering>()
    ensures takes { (answering : Asked A) (calls : List (Call (Asked A))) (now : Held (Asked A))
        → TakesAll (answer_of A.answers answering) (opened answering) calls now
        → GiveAnswers (answer_of A.answers answering) calls now }
    ensures end { (answering : Asked A) (calls : List (Call (Asked A))) (now last : Held (Asked A)) (answer : Option Text)
        → TakesAll (answer_of A.answers answering) (opened answering) calls now
        → SessionEnds (answer_of A.answers answering) now answer last
        → GiveAll (answer_of A.answers answering) calls answer }
    ensures faulty_take { (answering : Asked A) (calls : List (Call (Asked A))) (now last : Held (Asked A)) (piece later : Text) (number : ℕ)
        (fault : BlockFault)
        → TakesAll (answer_of A.answers answering) (opened answering) calls now
        → CallFailsBy (Block number fault) now (known_blocks true (now.pending ++ piece)) last
        → GiveUntil (answer_of A.answers answering) (used_by calls ++ piece ++ later) (given_by calls) number fault }
    ensures faulty_end { (answering : Asked A) (calls : List (Call (Asked A))) (now last : Held (Asked A)) (number : ℕ) (fault : BlockFault)
        → TakesAll (answer_of A.answers answering) (opened answering) calls now
        → CallFailsBy (Block number fault) now (known_blocks false now.pending) last
        → GiveUntil (answer_of A.answers answering) (used_by calls) (given_by calls) number fault }
{}
