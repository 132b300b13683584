//! A kept statement has its own words in the projection, but for what a call or a declaration loses, for every form.
//!
//! Each function is a law, and holds no code: its contract is the law, over the definitions of `specs/OwnWords`.
#![tactic(auto)]

ghost use Rattle.own_words.specs.OwnWords.{CallsFollow, OwnWordsStay, WholeWordsStay};

/// A law: where what is kept hangs together, each kept statement stands in the projection with the rank
/// of its number, on its line, and with its own words. A call has the arguments that it keeps, and its
/// left side where its result stays; of a declaration of which the call alone is kept, that call.
pub fn own_words_stay()
    ensures { OwnWordsStay }
{}

/// A law: a statement has all its words where its call loses no argument and not its result.
pub fn whole_words_stay()
    ensures { WholeWordsStay }
{}

/// A law: a declaration by a call, of which the call alone is kept while its variable stays, becomes the
/// declaration, in its words and without the call, and the call behind it.
pub fn calls_follow()
    ensures { CallsFollow }
{}
