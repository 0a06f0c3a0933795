// The reading call with teams, of a reader by value and on lent memory: above the call without teams, what its event says of a team.
#![tactic(auto)]

ghost use Rattle.std.specs.Prelude.{◌≡◌};
ghost use Rattle.state.specs.Slim.{said_is};
ghost use Rattle.teams.specs.Teams.{team_of};
ghost use Rattle.team_calls.specs.Reading.{teams_said, former_said};
ghost use Rattle.team_reading.specs.Answers.{TeamReadIs, team_call_on, LentTells};

use reader::ReadAnswer;
use refusal::Refusal;
use state::{Answer, Memory, Outcome, Scalars};
use teams::TeamReader;

// What a reading call with teams hands back. The former team belongs to a PlayerTeam record; it is none elsewhere.
#[derive(Clone, Copy)]
pub struct TeamRead {
    pub read: ReadAnswer,
    pub teams: [i32; 256],
    pub former: Option<i32>,
}

// The same of a call on lent memory.
#[derive(Clone, Copy)]
pub struct TeamOutcome {
    pub outcome: Outcome,
    pub former: Option<i32>,
}

// The teams after what a call answered; the former team.
fn apply_answer(teams: &mut [i32; 256], answer: Answer) -> Option<i32>
    ensures { (result ≡ former_said (said_is answer) teams.old) × (teams.new ≡ teams_said (said_is answer) teams.old) }
{
    match answer {
        Answer::Event { event, used: _ } => teams::apply(teams, event),
        Answer::More => None,
        Answer::Finish { used: _ } => None,
        Answer::Refused(_) => None,
    }
}

// The reading call: the window begins at the reader's place; last says that no more bytes come.
pub fn read(reader: TeamReader, window: &[u8], last: bool) -> TeamRead
    ensures { TeamReadIs reader window.now last result }
{
    let mut teams = reader.teams;
    let plain = reader.reader;
    if !teams::good_teams(&teams) {
        return TeamRead {
            read: reader::refused(plain, Refusal::BadState),
            teams,
            former: None,
        };
    }
    let read = reader::read(plain, window, last);
    let answer = read.answer;
    let former = apply_answer(&mut teams, answer);
    TeamRead {
        read,
        teams,
        former,
    }
}

// The reading call on lent memory and teams.
pub fn read_lent(
    scalars: Scalars,
    m: &mut Memory,
    teams: &mut [i32; 256],
    w: &[u8],
    last: bool,
) -> TeamOutcome
    ensures { LentTells (team_call_on scalars m.old teams.old w.now last) result m.new teams.new }
{
    if !teams::good_teams(&*teams) {
        return TeamOutcome {
            outcome: Outcome {
                answer: Answer::Refused(Refusal::BadState),
                scalars,
            },
            former: None,
        };
    }
    let outcome = lent::read_plain(scalars, m, w, last);
    let answer = outcome.answer;
    let team = apply_answer(teams, answer);
    TeamOutcome {
        outcome,
        former: team,
    }
}

// The team of a client, or none.
pub fn team(reader: TeamReader, cid: i32) -> Option<i32>
    ensures { result ≡ team_of reader.teams cid }
{
    let teams = reader.teams;
    teams::team_of(&teams, cid)
}
