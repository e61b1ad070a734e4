//! What the text of a report tells: `told_at v name text` is what stands after the name in the `D` lines of the computations at
//! node v, on the text alone. It is what was delivered; so the laws of `stack` hold of what was written, whatever the status.
//! Each function is a law: its body is empty, and its contract says what is proved.
ghost use Rattle.std.specs.Prelude.{◌≡◌, ◌<◌, ◌⊎◌, ◌++◌, [], ℕ, Bool, List, Option, length};
ghost use Rattle.std.specs.Io.KnownBytes.{Appends};
ghost use Rattle.samoa_ends.specs.Pieces.{AppendsPrefix};
ghost use Rattle.samoa_model.specs.Range.{IsInRange, IsExtOf};
ghost use Rattle.samoa_model.specs.Scripts.{micro_at};
ghost use Rattle.samoa_model.specs.Valid.{IsValid};
ghost use Rattle.samoa_model.specs.declared.record.Ext.{Ext};
ghost use Rattle.samoa_model.specs.declared.script.Script.{Script};
ghost use Rattle.samoa_serial.specs.LimitedReport.{report_in_full, report_to};
ghost use Rattle.samoa_serial.specs.Lists.{Each};
ghost use Rattle.samoa_serial.specs.Report.{report_of};
ghost use Rattle.samoa_serial.specs.Ticks.{admitted, admitted_to};
ghost use Rattle.samoa_model.specs.declared.record.Step.{Step};
ghost use Rattle.samoa_report.specs.Steps.{journal_text};
ghost use Rattle.samoa_laws.specs.trace.Group.{IsGroup, IsGroupHistory};
ghost use Rattle.samoa_laws.specs.lists.Lists.{Begins, Comparable, IsApart};
ghost use Rattle.samoa_laws.specs.streams.Streams.{stream_at};
ghost use Rattle.samoa_laws.specs.text.Told.{alike, told_at};
ghost use Rattle.samoa_laws.specs.text.Deliveries.{HasNames, deliveries, texts};
ghost use Rattle.samoa_laws.specs.text.Clause.{AppendsOneOrder, IsMute, stream_in};

/// A report tells all that a microprotocol delivers at a node in the serial run, in order, with lines of calls and without.
/// `all` is of any admissions to a script, and `limited` of the first `most` of its history.
pub fn reports_tell_deliveries()
    ensures all { (script : Script) (calls : Bool) (exts : List Ext) (p v : ℕ) → IsInRange script → HasNames script → p < length script.micros
        → Each (IsExtOf script) exts → told_at v (micro_at script p).name (report_of script calls exts) ≡ texts (deliveries script exts p v) }
    ensures limited { (most : ℕ) (script : Script) (calls : Bool) (p v : ℕ) → IsInRange script → HasNames script → p < length script.micros
        → told_at v (micro_at script p).name (report_to most script calls) ≡ texts (deliveries script (admitted_to most script) p v) }
{}

/// Scripts that a text can hold have names that keep to the rule, and no two microprotocols of the same name.
pub fn valid_scripts_have_names()
    ensures names { (script : Script) → IsValid script → HasNames script }
{}

/// What the beginning of a text tells begins what the text tells.
pub fn texts_tell_more_and_more()
    ensures begins { (v : ℕ) (name first whole : List ℕ) → Begins first whole → Begins (told_at v name first) (told_at v name whole) }
{}

/// The report of a script of the group stack tells the streams of its nodes. Of the streams that two beginnings of it tell, with
/// lines of calls or without, one begins the other at any two nodes; and no two messages of a stream have the same origin and number.
pub fn written_streams_agree()
    ensures told { (script : Script) (calls : Bool) (v : ℕ) → IsGroup script → IsInRange script
        → stream_in (report_in_full script calls) v ≡ texts (stream_at script (admitted script) v) }
    ensures order { (script : Script) (calls others : Bool) (first second : List ℕ) (v u : ℕ) → IsGroup script → IsInRange script
        → Begins first (report_in_full script calls) → Begins second (report_in_full script others) → Comparable (stream_in first v) (stream_in second u) }
    ensures apart { (script : Script) (calls : Bool) (first : List ℕ) (v : ℕ) → IsGroup script → IsInRange script
        → Begins first (report_in_full script calls) → IsApart alike (stream_in first v) }
{}

/// The same of the report of any group history.
pub fn reports_of_group_histories_agree()
    ensures told { (script : Script) (calls : Bool) (exts : List Ext) (v : ℕ) → IsInRange script → IsGroupHistory script exts
        → stream_in (report_of script calls exts) v ≡ texts (stream_at script exts v) }
    ensures order { (script : Script) (calls others : Bool) (exts : List Ext) (first second : List ℕ) (v u : ℕ) → IsInRange script → IsGroupHistory script exts
        → Begins first (report_of script calls exts) → Begins second (report_of script others exts) → Comparable (stream_in first v) (stream_in second u) }
    ensures apart { (script : Script) (calls : Bool) (exts : List Ext) (first : List ℕ) (v : ℕ) → IsInRange script → IsGroupHistory script exts
        → Begins first (report_of script calls exts) → IsApart alike (stream_in first v) }
{}

/// What is appended to a sink for a script of the group stack tells one order: `prefix` where it begins the report, `followed`
/// where it begins the report with a text after it that tells nothing, as the lines of a journal, and `mute` where it begins a
/// text that tells nothing. `at_any_status` takes it apart by status, where the report is due with one of them.
pub fn what_is_appended_agrees()
    ensures prefix { (script : Script) (calls : Bool) (old new : Option (List ℕ)) → IsGroup script → IsInRange script
        → AppendsPrefix old new (report_in_full script calls) → AppendsOneOrder old new }
    ensures followed { (script : Script) (calls : Bool) (more : List ℕ) (old new : Option (List ℕ)) → IsGroup script → IsInRange script → IsMute more
        → AppendsPrefix old new (report_in_full script calls ++ more) → AppendsOneOrder old new }
    ensures mute { (text : List ℕ) (old new : Option (List ℕ)) → IsMute text → AppendsPrefix old new text → AppendsOneOrder old new }
    ensures at_any_status { (script : Script) (due status : ℕ) (calls : Bool) (old new : Option (List ℕ)) → IsGroup script → IsInRange script
        → (status ≡ due → Appends old new (report_in_full script calls))
        → (status ≡ 5 → AppendsPrefix old new (report_in_full script calls)) → (status ≡ 6 → AppendsPrefix old new (report_in_full script calls))
        → (status ≡ 4 → Appends old new []) → (status ≡ due) ⊎ ((status ≡ 4) ⊎ ((status ≡ 5) ⊎ (status ≡ 6))) → AppendsOneOrder old new }
{}

/// The text of a journal tells nothing, of whatever steps: no line of it heads a computation or tells a delivery. So a report
/// that a journal follows tells what the report tells.
pub fn journals_tell_nothing()
    ensures mute { (steps : List Step) → IsMute (journal_text steps) }
{}
