//! The laws of hub and peer, each the contract of an empty function.

ghost use Rattle.yd_hub.specs.ExchangeLaw.{DocumentsMeet, ExchangesMeet, ExchangesShowAlike, RepliesLowerNoHeld};
ghost use Rattle.yd_hub.specs.HubLaw.{ChangesGoOn, HubReceives, HubStays, OtherBytesChangeNothing, RepeatsAreNoNews, SessionsFollow, StepsAreAnswered};
ghost use Rattle.yd_hub.specs.LoopLaw.{ActionsAreCarriedOut, ServingGoesOn, ServingIsARun, SyncIsARun, SyncStatus, ToldSaysAll};
ghost use Rattle.yd_hub.specs.OwnAnswers.{ReplicasAnswer};
ghost use Rattle.yd_hub.specs.PeerLaw.{PeerReceives, RepliesComplete};

/// A hub has received what it had and the updates of every Step2 and Change that it took from an open
/// session.
pub fn hub_receives()
    ensures { HubReceives }
{}

/// No bytes change what a hub received but those of a Step2 or Change.
pub fn other_bytes_change_nothing()
    ensures { OtherBytesChangeNothing }
{}

/// A hub has at most 1,024 sessions, and orders at most one close, and sends to open sessions.
pub fn hub_stays()
    ensures { HubStays }
{}

/// A session is open from where it opened and there was room, until it closed or sent what is no
/// message.
pub fn sessions_follow()
    ensures { SessionsFollow }
{}

/// A Step1 from an open session is answered by a Step2 of the reply to its vector.
pub fn steps_are_answered()
    ensures { StepsAreAnswered }
{}

/// An update that is news goes on to each other open session, once and not back.
pub fn changes_go_on()
    ensures { ChangesGoOn }
{}

/// An update that comes again is no news, so it is sent to nobody.
pub fn repeats_are_no_news()
    ensures { RepeatsAreNoNews }
{}

/// A peer has received what it had and the updates of every Step2, Change and edit.
pub fn peer_receives()
    ensures { PeerReceives }
{}

/// A Step2 that answered a peer's Step1, taken whenever, leaves it with each id and deletion of the
/// answerer.
pub fn replies_complete()
    ensures { RepliesComplete }
{}

/// After one exchange in each direction both sides have operations of the same ids.
pub fn exchanges_meet()
    ensures { ExchangesMeet }
{}

/// A reply lowers nothing that was held when it was asked for.
pub fn replies_lower_no_held()
    ensures { RepliesLowerNoHeld }
{}

/// Where operations are alike and honest, deletions that one side derived change nothing of what is
/// shown.
pub fn documents_meet()
    ensures { DocumentsMeet }
{}

/// After one exchange in each direction both show the same document, where it is honest and spelled
/// alike.
pub fn exchanges_show_alike()
    ensures { ExchangesShowAlike }
{}

/// A session whose send fails is closed once, gets nothing more, and is not open at the end.
pub fn actions_are_carried_out()
    ensures { ActionsAreCarriedOut }
{}

/// What the board was told says which sends failed.
pub fn told_says_all()
    ensures { ToldSaysAll }
{}

/// A hub that serves is where the list of its events leaves it.
pub fn serving_is_a_run()
    ensures { ServingIsARun }
{}

/// What one turn more adds to the state, the events and what is told.
pub fn serving_goes_on()
    ensures { ServingGoesOn }
{}

/// A peer that comes in step is where the list of its events leaves it.
pub fn sync_is_a_run()
    ensures { SyncIsARun }
{}

/// Which status a peer's loop gives, and which message it names.
pub fn sync_status()
    ensures { SyncStatus }
{}

/// A replica answers as the laws of synchronisation ask for.
pub fn replicas_answer()
    ensures { ReplicasAnswer }
{}
