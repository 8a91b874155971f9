//! A teller that opens one session, and has no memory for anything else.
ghost use Rattle.std.specs.List.{list_all};
ghost use Rattle.std.specs.Option.{option_to_list};
ghost use Rattle.std.specs.Prelude.{◌≡◌, ℕ, [], ◌∷◌, map, replicate, take, true};
ghost use Rattle.afp_serial.specs.History.{entry, stand};
ghost use Rattle.afp_serial.specs.Ranges.{is_typed_entry};
ghost use Rattle.afp_serial.specs.Sound.{IsSound};
ghost use Rattle.afp_serial.specs.World.{fresh_world};
ghost use Rattle.afp_serial.specs.declared.ask.Ask.TheVariants as asks_of;
ghost use Rattle.afp_serial.specs.declared.ask.Outcome.TheVariants as outcomes;

use afp_base::{LinkNumber, Moment};
use afp_serial::{Answered, Ask, Teller, entry_in_range};

/// A session that was opened.
#[derive(Clone, Copy)]
pub struct Opened {
    pub at: Moment,
    pub link: LinkNumber,
    pub attention: u32,
}

/// It opens one session, on link 1, and has no memory for any other ask. It counts its asks, and keeps the
/// last Lost.
#[derive(Drop)]
pub struct OneSession {
    pub opened: Option<Opened>,
    pub asks: u32,
    pub lost: Option<(Moment, LinkNumber)>,
    pub ghost ranges: { list_all (λ s. is_typed_entry (entry s.at s.link (asks_of.Open s.attention) outcomes.Done)) (option_to_list opened) ≡ true },
    pub ghost sound_at: { (k : ℕ) → IsSound (stand (fresh_world (record { server = 65 ∷ []; signature = replicate 16 0; users = []; volumes = (65 ∷ []) ∷ []; message = []; token_key = replicate 32 0 }) 0) (take k (map (λ s. entry s.at s.link (asks_of.Open s.attention) outcomes.Done) (option_to_list opened)))) },
}

impl OneSession {
    /// No session was opened.
    pub fn new() -> OneSession {
        OneSession {
            opened: None,
            asks: 0,
            lost: None,
        }
    }
}

impl Teller for OneSession {
    ghost use Rattle.std.specs.Prelude.{◌≡◌, ◌&&◌, true, [], ◌∷◌, length, map, replicate, Some, None, refl};
    ghost use Rattle.std.specs.List.{list_all};
    ghost use Rattle.std.specs.Option.{option_to_list};
    ghost use Rattle.std.proofs.Common.{ap, lit≤};
    ghost use Rattle.afp_serial.specs.History.{entry, is_lawful};
    ghost use Rattle.afp_serial.specs.HouseFault.{house_fault};
    ghost use Rattle.afp_serial.specs.Shown.{Rising};
    ghost use Rattle.afp_serial.specs.World.{fresh_world};
    ghost use Rattle.afp_serial.specs.declared.ask.Ask.TheVariants as asks_of;
    ghost use Rattle.afp_serial.specs.declared.ask.Outcome.TheVariants as outcomes;
    ghost use Rattle.afp_serial.specs.Ranges.{is_typed_entry, is_typed_house};
    ghost use Rattle.afp_serial.proofs.FreshWorld.{fresh-sound};

    type Fixed = ();

    ghost fixed = { λ t. tt };

    ghost shown = { λ t. record {
      start = fresh_world (record { server = 65 ∷ []; signature = replicate 16 0; users = []; volumes = (65 ∷ []) ∷ []; message = []; token_key = replicate 32 0 }) 0;
      history = map (λ s. entry s.at s.link (asks_of.Open s.attention) outcomes.Done) (option_to_list t.opened);
      mine = map (λ s. 0) (option_to_list t.opened);
      faults = 0;
    } };

    ghost sound = { λ t. record {
      start = fresh-sound (record { server = 65 ∷ []; signature = replicate 16 0; users = []; volumes = (65 ∷ []) ∷ []; message = []; token_key = replicate 32 0 }) 0 (unfold house_fault in refl) (unfold is_typed_house in refl) refl;
      lawful = (elim t.opened as (λ o. list_all (λ s. is_typed_entry (entry s.at s.link (asks_of.Open s.attention) outcomes.Done)) (option_to_list o) ≡ true → is_lawful (fresh_world (record { server = 65 ∷ []; signature = replicate 16 0; users = []; volumes = (65 ∷ []) ∷ []; message = []; token_key = replicate 32 0 }) 0) (map (λ s. entry s.at s.link (asks_of.Open s.attention) outcomes.Done) (option_to_list o)) ≡ true) [ None ↦ λ r. refl | Some s ↦ λ r. ap (λ b. b && true) r ]) t.ranges;
      stands = t.sound_at;
      within = elim t.opened as (λ o. Rising 0 (map (λ s. 0) (option_to_list o)) (length (map (λ s. entry s.at s.link (asks_of.Open s.attention) outcomes.Done) (option_to_list o)))) [ None ↦ lit≤ tt | Some s ↦ (lit≤ tt, lit≤ tt) ];
    } };

    fn ask(&mut self, now: Moment, link: LinkNumber, ask: Ask, _out: &mut [u8]) -> Answered {
        entry_in_range(now, link, &ask);
        self.asks = self.asks.saturating_add(1);
        match ask {
            Ask::Open { attention } => match self.opened {
                None => {
                    self.opened = Some(Opened {
                        at: now,
                        link,
                        attention,
                    });
                    Answered::Opened {
                        link: LinkNumber(1),
                    }
                }
                Some(_) => Answered::Memory,
            },
            Ask::Lost => {
                self.lost = Some((now, link));
                Answered::Memory
            }
            Ask::Call { .. } | Ask::Pulse | Ask::Bye | Ask::Drain => Answered::Memory,
        }
    }
}
