// Document 01, "Attribution", and document 02, ticket 4: a line that was read, weighed, as one entry.
#![tactic(auto)]

mod given;

ghost use Rattle.std.specs.Prelude.{◌≡◌, ◌≤◌};
ghost use Rattle.sheet.specs.Kinds.{letter, specific_figure};
ghost use Rattle.sheet.specs.declared.Kind.TheVariants.{SourceStream, MeasurableHeat, WasteGas, Electricity, BoughtPrecursor, PrecursorUse};
ghost use Rattle.entries.specs.Entries.{entry, used_entry};
ghost use Rattle.entries.specs.Read.{record_read, LineKeeps, LineKeeps-prop};

use ledger::Entry;
use lines::LineRead;
use quantity::method::Method;
use quantity::{Kilos, KilowattHours, Megajoules};
use sheet::Kind;

// A line that was read, and to which no row 4 to 7 applies.
#[derive(Clone, Copy)]
pub struct KeptLine<'a> {
    pub line: &'a LineRead,
    ghost keeps: { LineKeeps line.now } by { LineKeeps-prop line.now },
}

impl<'a> KeptLine<'a> {
    // `S,n,method,code,kg,a,b,c,d`, `-` in a or b standing for the standard value. A line that keeps its ranges has a method.
    #[tactic(auto, using(crate::proofs::WeighingStream::method_known, crate::proofs::WeighingStream::stream_asked, crate::proofs::WeighingStream::stream_entry))]
    fn weigh_stream(self) -> Entry
        requires { self.line.now.letter ≡ letter SourceStream }
        ensures { result ≡ entry (record_read self.entry.line.now) }
    {
        let words = &self.line.words;
        let method = Method::try_from(words[1]).unwrap();
        let code = words[2];
        let a = given::given_a(method, code, words[4]);
        let b = given::given_b(code, words[5]);
        let grams = streams::stream(method, Kilos(words[3]), a, b, words[6], words[7]);
        moves::stream_entry(words[0] as usize, grams)
    }

    // `H,from,to,MJ,factor`. Heat and electricity are two functions: their units differ, and what they move.
    #[tactic(auto, using(crate::proofs::Weighing::heat_asked, crate::proofs::Weighing::heat_entry))]
    fn weigh_heat(self) -> Entry
        requires { self.line.now.letter ≡ letter MeasurableHeat }
        ensures { result ≡ entry (record_read self.entry.line.now) }
    {
        let words = &self.line.words;
        let weight = grams::weighing::weighed(Megajoules(words[2]), words[3]);
        transferred::heat_entry(words[0] as usize, words[1] as usize, weight.grams)
    }

    // `W,from,to,MJ`.
    #[tactic(auto, using(crate::proofs::Weighing::gas_asked, crate::proofs::Weighing::gas_entry))]
    fn weigh_gas(self) -> Entry
        requires { self.line.now.letter ≡ letter WasteGas }
        ensures { result ≡ entry (record_read self.entry.line.now) }
    {
        let words = &self.line.words;
        transferred::gas_entry(words[0] as usize, words[1] as usize, Megajoules(words[2]))
    }

    // `E,from,to,kWh,factor`.
    #[tactic(auto, using(crate::proofs::Weighing::electricity_asked, crate::proofs::Weighing::electricity_entry))]
    fn weigh_electricity(self) -> Entry
        requires { self.line.now.letter ≡ letter Electricity }
        ensures { result ≡ entry (record_read self.entry.line.now) }
    {
        let words = &self.line.words;
        let weight = grams::weighing::weighed(KilowattHours(words[2]), words[3]);
        transferred::electricity_entry(words[0] as usize, words[1] as usize, weight.grams)
    }

    // `B,n,kg,direct,indirect`.
    #[tactic(auto, using(crate::proofs::Weighing::direct_asked, crate::proofs::Weighing::indirect_asked, crate::proofs::Weighing::bought_entry))]
    fn weigh_bought(self) -> Entry
        requires { self.line.now.letter ≡ letter BoughtPrecursor }
        ensures { result ≡ entry (record_read self.entry.line.now) }
    {
        let words = &self.line.words;
        let direct = grams::weighing::weighed(Kilos(words[1]), words[2]);
        let indirect = grams::weighing::weighed(Kilos(words[1]), words[3]);
        moves::bought_entry(words[0] as usize, direct, indirect)
    }

    // `N,process,precursor,kg`, by the figures that govern its precursor: as a B line with these figures.
    pub fn weigh_use(self, direct: u64, indirect: u64) -> Entry
        requires letter { self.line.now.letter ≡ letter PrecursorUse }
        requires direct_bound { direct ≤ specific_figure.highest }
        requires indirect_bound { indirect ≤ specific_figure.highest }
        ensures { result ≡ used_entry direct indirect (record_read self.entry.line.now) }
    {
        let words = &self.line.words;
        let direct = grams::weighing::weighed(Kilos(words[2]), direct);
        let indirect = grams::weighing::weighed(Kilos(words[2]), indirect);
        moves::bought_entry(words[0] as usize, direct, indirect)
    }

    // The entry of the line by its letter. Outputs, own goods and the figures of precursors move no grams here, nor do the uses of precursors:
    // `weigh_use` weighs these, once the figures are known.
    #[tactic(auto, using(sheet::proofs::Table::letter_of), unfolding(crate::specs::Read::record_read))]
    pub fn weigh(self) -> Entry
        ensures { result ≡ entry (record_read self.entry.line.now) }
    {
        match Kind::from(self.line.letter) {
            Kind::SourceStream => self.weigh_stream(),
            Kind::MeasurableHeat => self.weigh_heat(),
            Kind::WasteGas => self.weigh_gas(),
            Kind::Electricity => self.weigh_electricity(),
            Kind::BoughtPrecursor => self.weigh_bought(),
            Kind::Process => Entry::default(),
            Kind::OwnGood => Entry::default(),
            Kind::PrecursorFigures => Entry::default(),
            Kind::PrecursorUse => Entry::default(),
            Kind::Unknown => Entry::default(),
        }
    }
}
