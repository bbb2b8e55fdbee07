// The three demands. What is promised of a call is the contract of a function of the same name that does nothing but the call
// (node.rt, wire.rt, saved.rt, mirror.rt, listing.rt, meters.rt), so that it hangs on the code. What is promised of whole streams and histories, and of the search's count, which no
// call answers, is the contract of a function with an empty body, here. The gate prints a 'proved' line for each.
#![tactic(auto)]

ghost use Rattle.std.specs.Prelude.{◌≡◌, map};
ghost use Rattle.wing_node.specs.Written.{ReadsBack};
ghost use Rattle.wing_node.specs.BothWays.{BothWays};
ghost use Rattle.wing_node.specs.Cases.{AsWanted, definitions, items, bodies, strings};
ghost use Rattle.wing_wire.specs.RoundTrip.{RoundTrip, RoundTripPieces};
ghost use Rattle.wing_wire.specs.Repeated.{UntilMore};
ghost use Rattle.wing_wire.specs.Tokens.{Tokens};
ghost use Rattle.wing_wire.specs.Cases.{Case, cases};
ghost use Rattle.wing_wire.specs.EarlierReading.{CarriesOver};
ghost use Rattle.wing_saved.specs.Saved.{SavedLaws};
ghost use Rattle.wing_saved.specs.Earlier.{EarlierLaws};
ghost use Rattle.wing_saved.specs.Cases.{Case as SavedCase, cases as saved_cases};
ghost use Rattle.wing_listing.specs.BothWays.{BothWays as ListedBothWays};
ghost use Rattle.wing_listing.specs.Cases.{Case as ListedCase, cases as listed_cases, ends as listed_ends};
ghost use Rattle.wing_meters.specs.Moving.{Moving};
ghost use Rattle.wing_meters.specs.Cases.{Case as WindowCase, cases as window_cases};
ghost use Rattle.wing_mirror.specs.Record.{full};
ghost use Rattle.wing_mirror.specs.HighEnd.{SearchReads};
ghost use Rattle.wing_mirror.specs.History.{Agreement, Equality, Rebuilding, Histories};
ghost use Rattle.wing_mirror.specs.Origins.{WhoSetIt};
ghost use Rattle.wing_mirror.specs.OlderTables.{OriginForms};
ghost use Rattle.wing_mirror.specs.Cases.{Case as MirrorCase, cases as mirror_cases};
ghost use Rattle.promises.specs.Refusals.{Numbered};
ghost use Rattle.promises.specs.Node.{Walks, Goods};
ghost use Rattle.promises.specs.Wire.{with_event, listed, PiecesJoin};
ghost use Rattle.promises.specs.Mirror.{UnplacedStays, AgreementFrom, MachineReads, EventsCounted, SearchCounts};
ghost use Rattle.promises.specs.TableBytes.{TableBytes, NoPlace, OriginNumbers};

pub mod listing;
pub mod meters;
pub mod mirror;
pub mod node;
pub mod saved;
pub mod wire;

// Demand 1, console bytes. Whatever bytes are fed from between tokens, their units are cut into tokens of 01's table, and what is handed on is what
// these tokens give, in order and nothing else: 1 with its good exactly for a string whose units are not UTF-8, 2 exactly for a count in force over
// 4,096, 3 exactly where both counts are 0 (02), each when the last unit comes. Every unit of a token other than d7 leaves the node as it was.
pub fn demand_1_tokens()
    ensures { Tokens with_event }
{}

// Demand 1, the good of a string (02). The good that stands beside 1 and 5 is how many leading bytes of the refused string form whole characters, the largest
// such number; a string is UTF-8 exactly if all of it is good.
// A lead byte's class is its count of leading one bits (01), and says how many bytes its character has.
pub fn demand_1_goods()
    ensures { Goods }
{}

// Demand 1, the numbers of the refusals, in the order of 01's table and of 02, whatever goods stand beside 1 and 5.
pub fn demand_1_numbers()
    ensures { Numbered }
{}

// Demand 1, console bytes in pieces. From any state, in the midst of a token too, bytes in two pieces are read as the bytes at once.
pub fn demand_1_pieces()
    ensures { PiecesJoin }
{}

// Demand 1, items. Over a body that the parser takes a walk gives exactly its count of items, that of each number in its turn,
// and then none.
pub fn demand_1_walks()
    ensures { Walks }
{}

// Demand 1, 'As it was'. Within a feed a value for which there is no place leaves the records as they were.
pub fn demand_1_unplaced()
    ensures { UnplacedStays }
{}

// Demand 2. The bytes of a set order, read in a sound state that is unescaped, between tokens and with no byte pending, give that
// value at that node. Of the bytes that the writers' own answers tell, the contracts of set_int, set_float and set_string say it.
pub fn demand_2_round_trip()
    ensures { RoundTrip }
{}

// Demand 2, for bytes that arrive in any pieces: what is read after them is that value at that node, once.
pub fn demand_2_in_pieces()
    ensures { RoundTripPieces with_event }
{}

// Demand 2, for definitions of all eight types: fields that fit their forms, one after the other, are read as these fields, with
// the numbers and bytes that they hold, and their items with both parts of each, in order.
pub fn demand_2_definitions()
    ensures { ReadsBack }
{}

// Demand 2, both ways (02): for all eight types what the writer writes is read as the fields that were given, with the names' bytes and every item; and
// a body of at most 4,096 bytes that the parser takes, written anew from the parser's answer, has the same bytes exactly when the type and unit bits of its
// flags are below 8 each, its unused flag bits are 0 and no bytes follow its last field.
pub fn demand_2_both_ways()
    ensures { BothWays }
{}

// Demand 3. 01: feed runs next until "more". From a sound state with at most 65,536 bytes next calls, each on what the one before
// left, come to an end, and leave and hand on what the feed does.
// The feed here is the wire's fold over the bytes (feed_events), of which demand 1 and 2 speak. Of the plain machine demand_3_machine_reads says it, of the mirror's feed its contract.
pub fn demand_3_until_more()
    ensures { UntilMore with_event }
{}

// Demand 3. After any list of feed and set calls, refused ones included, a mirror has answered each call as the plain
// machine does and holds exactly the machine's nodes with their last values and, by 02, who gave them.
pub fn demand_3_histories()
    ensures { Agreement full }
{}

// Demand 3. Two mirrors are equal exactly when their machines' maps are.
pub fn demand_3_equality()
    ensures { Equality full }
{}

// Demand 3. What a recall says that it wrote of a mirror, in any split, rebuilds an equal mirror, the origin set aside (02): all other bytes agree and its origins are 0.
pub fn demand_3_recall()
    ensures { Rebuilding full }
{}

// Demand 3 in one piece, with the signed order of the records, what comparing and recalling answer, recall of any table and
// the bounds of the counts.
pub fn demand_3_whole()
    ensures { Histories full }
{}

// Demand 3 from any mirror that the calls take, with a byte pending in its decoder too: after any list of calls it has answered each as the plain machine that stands where
// it stood, holds the machine's nodes, and has left the bytes after its last record.
pub fn demand_3_from_any()
    ensures { AgreementFrom }
{}

// Demand 3. The plain machine's decoder runs next until "more": its events, in order with their nodes, and the state that it leaves are those of next calls, each on what the one
// before left. Of the mirror's feed, with what it stores and counts, the contract of feed says it.
pub fn demand_3_machine_reads()
    ensures { MachineReads }
{}

// Demand 1, within a feed. A refused string leaves the records as they were, whatever its good (02), and raises the count of strings refused by one, and no other; a body that the decoder or
// the parser refuses likewise that of definitions refused, one that the parser takes that of definitions read, an end that of ends, a value that of values stored or of values with no place.
pub fn demand_1_refused()
    ensures { EventsCounted }
{}

// Who set it (02): an accepted set of any table leaves its node with its value and origin 1; an accepted feed leaves each node that its bytes give values, and that has a record after it, with the
// last of them and origin 0, whatever it had, and such a node has one if it had before or if a place is free after it; both leave the others as they were. A byte of each record is its origin's number; two
// tables compare with origins included; recall sends the same of two that differ in their origins alone; and one that equals another but for origins equals it whole exactly if the other's are all 0.
pub fn who_set_it()
    ensures { WhoSetIt full }
{}

// Older tables (02): a table that was sound by 01, with 00 where the origin stands now, is sound and reads as console values, and one that was usable is taken; one with an origin over 1 gets 7; and nothing
// else of a record's form has altered.
pub fn origin_forms()
    ensures { OriginForms }
{}

// A table's bytes (01, 02), in figures: the record of number n is bytes 264 n to 264 n + 263; what its bytes say as node, value and origin, of whatever release they are; the
// places allowed are 1 to 1,024; and which tables are sound, and which the calls take.
pub fn table_bytes()
    ensures { TableBytes }
{}

// The origins' numbers (02), in figures: 0 for the console and 1 for a set order.
pub fn origin_numbers()
    ensures { OriginNumbers }
{}

// Feeds and sets of one place, records, tables that are taken and that are not, the recall and the places allowed, written out: what the definitions give in each case is what is wanted.
pub fn mirror_cases()
    ensures { map (λ (c : MirrorCase). c.got) mirror_cases ≡ map (λ (c : MirrorCase). c.wanted) mirror_cases }
{}

// No place (01): in a usable table a value has no place exactly if no record has its node's id and there are no more places than records, whoever gives it. Of the call
// that sets, its contract says it.
pub fn no_place()
    ensures { NoPlace }
{}

// An old decoder state carried over (02): whatever bytes a fresh old decoder and a fresh new one were fed alike, none of whose units is one of the four after a
// count 0, the old one's state is carried over as the new one's; and any old state, carried over, answers further bytes as it did as long as no such unit comes.
// With the first such unit a sound state gets 8.
// What is compared is the very state that the call answers with, and the units left out are those after a count 0 and no others.
pub fn carried_over()
    ensures { CarriesOver listed }
{}

// Heads of saved states, written out byte for byte: today's, and those of old states under version 1, with the number of every class.
pub fn saved_cases()
    ensures { map (λ (c : SavedCase). c.got) saved_cases ≡ map (λ (c : SavedCase). c.wanted) saved_cases }
{}

// A decoder state as bytes: a sound state's bytes read back as that state, bytes that read as a state are its bytes, and any other
// bytes are 8. Of the bytes that save's own answer tells, its contract says it.
pub fn saved_states()
    ensures { SavedLaws }
{}

// A state saved under version 1 (02): its bytes are loaded as it is carried over, bytes that are loaded are such a state's, and any other bytes are 8.
pub fn saved_earlier()
    ensures { EarlierLaws }
{}

// Listings both ways (02): a text is taken exactly if it is the listing of entries that a table takes, else it is sent back for its first bad line: the header, or the
// first line that is not printed of any entry or whose entry is wrong there; loading a table printed in at most 65,536 bytes, into 1 to 1,024 places and
// at least as many as it has records, gives an equal mirror, its origins 0, with a fresh decoder, whatever the memory held and whatever the origins were, which are not printed; and printing what was loaded gives the text
// again, for every text that loads.
pub fn listing_both_ways()
    ensures { ListedBothWays }
{}

// A window over a strip's last readings (02): for every width from 1 to 256 and every list of readings, each reading call is answered with the figures worked out afresh
// from the last readings of the list so far (its end, as many as the width or all where it has fewer), and so are the figures asked for after them, none of no readings; the sum is the quotient times the number plus the
// remainder, which is from 0 to number − 1, the largest is one of these readings and none of them is above it; and a state is taken exactly when some list of readings leaves it.
pub fn moving_average()
    ensures { Moving }
{}

// The search for a node's record (02): in every usable table it reads the ids above the one asked, and one more if any is not above it. The contract of
// the mirror's private order::search_down equates the code's count with what this is about.
pub fn search_reads()
    ensures { SearchReads full }
{}

// The same where the ids part, those not above the one asked and then those above it; and where lookup tells a record's number, as many ids are read as from the last record down to that one.
pub fn search_counts()
    ensures { SearchCounts }
{}

// The cases that 01 marks #, and 02's counts: what the definitions give in each is what is wanted.
// So it is at boundaries of 01's rules for states, escapes, requests and meters.
pub fn marked_cases()
    ensures { map (λ (c : Case). c.got) cases ≡ map (λ (c : Case). c.wanted) cases }
{}

// 01's example of a listing, and the boundary lines that 02 names: what the definitions give in each is what is wanted.
// So it is for whole texts.
pub fn listing_cases()
    ensures { map (λ (c : ListedCase). c.got) listed_cases ≡ map (λ (c : ListedCase). c.wanted) listed_cases }
{}

// The largest and the least id and integer in a listing (02): what the definition gives is what is wanted.
pub fn listing_ends()
    ensures { listed_ends.got ≡ listed_ends.wanted }
{}

// 01's 15 and 14 bytes, and definitions of each type: what the parser, an item's number and, from the same fields (02), the writer give in each is what is wanted.
pub fn definition_cases()
    ensures { AsWanted definitions × (AsWanted items × AsWanted bodies) }
{}

// RFC 3629's grammar at the ends of each of its rows: how many leading bytes are good (02) in each case is what is wanted.
pub fn utf8_cases()
    ensures { AsWanted strings }
{}

// Figures of some readings, written out: what the definitions give in each case is what is wanted.
pub fn window_cases()
    ensures { map (λ (c : WindowCase). c.got) window_cases ≡ map (λ (c : WindowCase). c.wanted) window_cases }
{}
