// Worlds and seats, moved to posts and back.
ghost use Rattle.std.specs.Prelude.{◌≡◌, ◌+◌, ◌≤◌, [], All, IfSome, length, map, reverse, vec_len, vec_capacity};
ghost use Rattle.fleet.specs.Moves.{world_in, seats_in, AreFrom};

use crate::post::Post;
use crate::watched::Watched;
use gate_base::WorkerNo;
use gate_io::World;
use shared_seats::SeatList;
use std::alloc::Global;
use worker::Turn;

/// Moves worlds and seats to posts, the last worker's first. It takes no memory.
pub fn post_all<W: World + Drop>(
    alloc: Global,
    worlds: &mut Vec<W>,
    lists: &mut Vec<SeatList>,
    posts: &mut Vec<Post<W>>,
)
    requires as_many { vec_len worlds.old ≡ vec_len lists.old }
    requires workers { vec_len worlds.old ≤ 8 }
    requires fresh { All (λ w. IfSome (W.trace w) (λ trace. trace ≡ [])) worlds.old.items }
    requires none { posts.old.items ≡ [] }
    requires room { vec_len worlds.old ≤ vec_capacity posts.old }
    ensures worlds { reverse (map world_in posts.new.items) ≡ worlds.old.items }
    ensures lists { reverse (map seats_in posts.new.items) ≡ lists.old.items }
    ensures workers { AreFrom 0 posts.new.items }
    ensures no_world { worlds.new.items ≡ [] }
    ensures no_list { lists.new.items ≡ [] }
    ensures fits { vec_len posts.new ≤ vec_capacity worlds.new }
    ensures lists_fit { vec_len posts.new ≤ vec_capacity lists.new }
    ensures len { vec_len posts.new ≡ vec_len worlds.old }
    ensures worlds_room { vec_capacity worlds.new ≡ vec_capacity worlds.old }
    ensures lists_room { vec_capacity lists.new ≡ vec_capacity lists.old }
{
    'moves: while let Some(world) = worlds.pop() {
        let seats = lists.pop().unwrap();
        let who = WorkerNo::new(worlds.len() as u8 + 1).unwrap();
        posts.push_reserved(Post {
            watched: Watched::new(alloc, world),
            seats,
            who,
            end: Turn::Stopped,
            again: false,
        });
    }
}

/// Moves them back. It takes no memory.
pub fn hand_back<W: World + Drop>(
    worlds: &mut Vec<W>,
    lists: &mut Vec<SeatList>,
    posts: &mut Vec<Post<W>>,
)
    requires no_world { worlds.old.items ≡ [] }
    requires no_list { lists.old.items ≡ [] }
    requires room { vec_len posts.old ≤ vec_capacity worlds.old }
    requires lists_room { vec_len posts.old ≤ vec_capacity lists.old }
    ensures worlds { worlds.new.items ≡ reverse (map world_in posts.old.items) }
    ensures lists { lists.new.items ≡ reverse (map seats_in posts.old.items) }
{
    'moves: while let Some(post) = posts.pop() {
        let Post {
            watched,
            seats,
            who: _,
            end: _,
            again: _,
        } = post;
        worlds.push_reserved(watched.into_world());
        lists.push_reserved(seats);
    }
}
