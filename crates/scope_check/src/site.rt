//! Where a process stands, the numbers that come next, and what macros stand for.

ghost use Rattle.std.specs.Prelude.{◌≡◌, ℕ, ◌+◌, ◌<◌, ◌≤◌, List, length, map, take, get_or, IfOk, OnOk, IfErr, IsTrue, option_map};
ghost use Rattle.spec_calculus.specs.Bounds.{most_points, most_points_above};
ghost use Rattle.spec_protocol_scope.specs.Names as naming;
ghost use Rattle.spec_protocol_scope.specs.Processes as rules;
ghost use Rattle.spec_protocol_grammar.specs.Sketch as own;
ghost use Rattle.pi_parser.specs.Processes.{process_of, unit_of};
ghost use Rattle.scope_declarations.specs.Answer.{Gives, Stops, code_of};
ghost use Rattle.scope_check.specs.Forms.{form_of, site_of, read_at, macros_of, weight_of, used_at, expansion_at, is_point};
ghost use Rattle.scope_declarations.specs.Names.{meaning_of};
ghost use Rattle.scope_check.specs.Numbers.{HaveRoom, numbers_of};
ghost use Rattle.scope_declarations.specs.Scope.{scope_of};

use crate::numbers::Numbers;
use pi_parser::{ProcessSketch, UnitSketch};
use pi_tree::{MOST_POINTS, MOST_POINTS_ABOVE};
use scope_declarations::names::{Macro, Meaning, look};
use scope_declarations::place::Place;
use scope_declarations::scope::Scope;
use scope_declarations::stop::{Code, Stop};
use scope_declarations::text::text_of;
use std::alloc::Global;

/// Where a process stands, and what is counted when it is met.
#[derive(Clone, Copy)]
pub struct Site<'a, 'b> {
    pub alloc: Global,
    /// What names are read by there, and what is bound.
    pub place: Place<'a, 'b>,
    /// The macros that are seen there.
    pub macros: &'a [Macro<'a>],
    /// How many points stand above it.
    pub above: usize,
    /// The identifier of the outermost macro use that it comes from.
    pub used: Option<usize>,
    /// The phase in force there.
    pub phase: u32,
    /// The numbers that come next.
    pub numbers: Numbers,
}

/// A process of a sketch: `unit | process`, or a unit alone.
#[derive(Clone, Copy)]
pub enum Form<'a> {
    /// `unit | process`.
    Both(&'a UnitSketch, &'a ProcessSketch),
    /// A unit.
    Unit(&'a UnitSketch),
}

impl<'a> Form<'a> {
    /// The form of a process.
    pub fn new(process: &'a ProcessSketch) -> Self
        ensures { form_of result ≡ process_of process.now }
    {
        match process {
            ProcessSketch::Alone(unit) => Form::Unit(unit),
            ProcessSketch::Beside(unit, others) => Form::Both(unit, others),
        }
    }
}

/// A process without the parentheses round the whole of it, and with its macro expanded: it begins with a point. It
/// stands at this site, where the macros before the expanded one are seen.
#[derive(Clone, Copy)]
pub struct Opened<'a, 'b> {
    pub form: Form<'a>,
    pub site: Site<'a, 'b>,
}

/// Whether one more point may stand there.
fn is_room(site: &Site) -> bool
    ensures { result ≡ rules.is_room (site_of site.now) (numbers_of site.now.numbers) }
{
    site.numbers.point as usize <= MOST_POINTS && site.above <= MOST_POINTS_ABOVE
}

/// The numbers behind the next point.
fn counted(numbers: Numbers) -> Numbers
    requires { numbers.point ≤ most_points }
    ensures counted { numbers_of result ≡ rules.counted (numbers_of numbers) }
    ensures room { HaveRoom result }
{
    Numbers {
        point: numbers.point + 1,
        variable: numbers.variable,
    }
}

/// The next point is met, which begins with this token.
pub fn reached(site: &Site, token: usize) -> Result<Numbers, Stop>
    ensures read { Gives numbers_of result (rules.reached (site_of site.now)
        (numbers_of site.now.numbers) token) }
    ensures above { OnOk result (site.now.above ≤ most_points_above) }
    ensures room { IfOk result HaveRoom }
{
    if is_room(site) {
        Ok(counted(site.numbers))
    } else {
        Err(Stop::Fault(Code::TooMany, site.used.unwrap_or(token)))
    }
}

/// Why an identifier is not the use of a macro.
fn misuse(meaning: Option<Meaning>) -> Code
    ensures { code_of result ≡ rules.misuse (option_map meaning_of meaning) }
{
    match meaning {
        None | Some(Meaning::Macro) => Code::Unknown,
        Some(_) => Code::Kind,
    }
}

/// The place of the macro that the token uses among these, of which the latest counts.
pub fn used_macro(scope: &Scope, macros: &[Macro], token: usize) -> Result<usize, Stop>
    ensures found { IfOk result (λ at. (at < length macros.now) ×
        ((m : Macro) → m ≡ get_or macros.now at m →
        rules.used_macro (scope_of scope.now) (macros_of (scope_of scope.now) macros.now) token ≡
        Ok (expansion_at (scope_of scope.now) macros.now at m))) }
    ensures refused { IfErr result (λ e. Stops e
        (rules.used_macro (scope_of scope.now) (macros_of (scope_of scope.now) macros.now) token)) }
{
    let word = text_of(&scope.text, token);
    let mut at = macros.len();
    while at > 0 {
        at -= 1;
        if text_of(&scope.text, macros[at].name) == word {
            return Ok(at);
        }
    }
    Err(Stop::Fault(misuse(look(scope, token)), token))
}

/// A point past the limits that begins with this unit, outside of macros: a faulty macro use there is the lesser fault.
#[tactic(auto, using(crate::proofs::Stopping::stops_step))]
fn crowded(scope: &Scope, macros: &[Macro], unit: &UnitSketch) -> Stop
    ensures { Stops result (rules.crowded (scope_of scope.now)
        (macros_of (scope_of scope.now) macros.now) (unit_of unit.now)) }
{
    match unit {
        UnitSketch::Macro(token) => match used_macro(scope, macros, *token) {
            Ok(_) => Stop::Fault(Code::TooMany, *token),
            Err(stop) => stop,
        },
        UnitSketch::Zero(first)
        | UnitSketch::Inner(first, _)
        | UnitSketch::Replicated(first, _)
        | UnitSketch::New(first, _, _)
        | UnitSketch::Output(first, _, _, _)
        | UnitSketch::Input(first, _, _, _)
        | UnitSketch::Happens(first, _, _)
        | UnitSketch::Let(first, _, _, _, _)
        | UnitSketch::If(first, _, _, _, _)
        | UnitSketch::Phase(first, _, _)
        | UnitSketch::Insert(first, _, _)
        | UnitSketch::Get(first, _, _, _, _, _) => Stop::Fault(Code::TooMany, *first),
    }
}

/// The point of `unit | process` is met.
pub fn both_reached(site: &Site, unit: &UnitSketch) -> Result<Numbers, Stop>
    ensures read { Gives numbers_of result (rules.both_reached (scope_of site.now.place.scope)
        (macros_of (scope_of site.now.place.scope) site.now.macros.now) (site_of site.now)
        (numbers_of site.now.numbers) (unit_of unit.now)) }
    ensures above { OnOk result (site.now.above ≤ most_points_above) }
{
    if is_room(site) {
        return Ok(counted(site.numbers));
    }
    match site.used {
        Some(used) => Err(Stop::Fault(Code::TooMany, used)),
        None => Err(crowded(&site.place.scope, site.macros, unit)),
    }
}

/// The macro at that place among these.
fn macro_at<'a>(macros: &[Macro<'a>], at: usize) -> Macro<'a>
    requires { at < length macros.now }
    ensures { result ≡ get_or macros.now at result }
{
    macros[at]
}

/// What a process begins with, when parentheses round the whole of it are dropped and macros are expanded.
pub fn open_form<'a, 'b>(start: Form<'a>, site: &Site<'a, 'b>) -> Result<Opened<'a, 'b>, Stop>
    ensures found { IfOk result (λ found. read_at site.now (form_of start.entry) ≡
        read_at found.site (form_of found.form)) }
    ensures lighter { IfOk result (λ found. weight_of found.site.macros.now (form_of found.form) ≤
        weight_of site.now.macros.now (form_of start.entry)) }
    ensures point { IfOk result (λ found. IsTrue (is_point (form_of found.form))) }
    ensures refused { IfErr result (λ e. Stops e (read_at site.now (form_of start.entry))) }
{
    let mut form = start;
    let mut macros = site.macros;
    let mut used = site.used;
    loop {
        match form {
            Form::Unit(UnitSketch::Inner(_, process)) => form = Form::new(process),
            Form::Unit(UnitSketch::Macro(token)) => {
                let at = used_macro(&site.place.scope, macros, *token)?;
                used = Some(used.unwrap_or(*token));
                form = Form::new(macro_at(macros, at).body);
                macros = &macros[..at];
            }
            _ => {
                return Ok(Opened {
                    form,
                    site: within(site, macros, used),
                });
            }
        }
    }
}

/// The same site, where these macros are seen and that one is in use.
fn within<'a, 'b>(site: &Site<'a, 'b>, macros: &'a [Macro<'a>], used: Option<usize>) -> Site<'a, 'b>
    ensures place { result.place ≡ site.now.place }
    ensures macros { result.macros.now ≡ macros.now }
    ensures used { site_of result ≡ used_at used (site_of site.now) }
    ensures numbers { result.numbers ≡ site.now.numbers }
{
    Site {
        alloc: site.alloc,
        place: site.place,
        macros,
        above: site.above,
        used,
        phase: site.phase,
        numbers: site.numbers,
    }
}
